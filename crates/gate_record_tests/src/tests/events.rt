//! One record of each type of event that Gerrit documents, as it stands in `examples/events`, and each field of what it
//! is read as.
use super::playing::play;
use std::test::Fail;

#[test]
fn reads_each_type(rt: HostRuntime) -> Result<(), Fail> {
    let script = r#"
        # reads changes with an account
        read {"uploader":{"name":"Dana Okafor","email":"dana.okafor@example.org","username":"dokafor"},"patchSet":{"number":7,"revision":"9c41e6f0d2b85a7731fe04c6b9d8a25e7f1380bc","parents":["3f0d9be27c5a18446de1b7a0952fc8e3d16b7a08"],"ref":"refs/changes/12/874312/7","uploader":{"name":"Dana Okafor","email":"dana.okafor@example.org","username":"dokafor"},"createdOn":1676467815,"author":{"name":"Dana Okafor","email":"dana.okafor@example.org","username":"dokafor"},"kind":"REWORK","sizeInsertions":412,"sizeDeletions":-97},"change":{"project":"openstack/nova","branch":"master","topic":"bp/ordered-volume-detach","id":"I5b1f7d0c9a3e4f62814d0b7c6a9e8f3d2c1b0a49","number":874312,"subject":"Detach volumes in the order of their attachment","owner":{"name":"Dana Okafor","email":"dana.okafor@example.org","username":"dokafor"},"url":"https://review.example.org/c/openstack/nova/+/874312","commitMessage":"Detach volumes in the order of their attachment\n\nThe compute manager walks the block device mappings of an instance in\nwhatever order the database gives them. Where two volumes share a\nmultipath device, detaching the first one\u0027s parent while its child is\nstill open leaves a stale path behind, and the next attach on the same\nhost waits for udev until its timeout.\n\nSort the mappings by the time of their attachment, the newest first,\nand detach them one by one. A volume that can\u0027t be detached is kept in\nthe list with its error, so that a later call can try it again, and\nthose behind it are still detached.\n\nThe functional test attaches three volumes, fails the second one with\nan injected \"DeviceBusy\", and expects that the third and the first are\ngone while the second one is reported as `error_detaching`.\n\nThe new option [compute]/volume_detach_order is either `attachment`\n(the default) or `database`, which keeps what older releases did. An\noperator who sets it sees a warning at start-up, since it is going to\nbe dropped in the release after next.\n\nCloses-Bug: #2031847\nRelated-Bug: #1998274\nImplements: blueprint ordered-volume-detach\nDepends-On: https://review.example.org/c/openstack/os-brick/+/873990\nChange-Id: I5b1f7d0c9a3e4f62814d0b7c6a9e8f3d2c1b0a49\n","hashtags":["volumes","review-priority"],"createdOn":1674741022,"lastUpdated":1676467815,"open":true,"status":"NEW"},"type":"patchset-created","eventCreatedOn":1676467816}
        kind "patchset-created"
        project "openstack/nova"
        branch "master"
        change 874312
        patchset 7
        username "dokafor"
        email "dana.okafor@example.org"

        read {"author":{"name":"Mei-Ling Hsu","email":"meiling@example.com","username":"mlhsu"},"approvals":[{"type":"Verified","description":"Verified","value":"1"},{"type":"Code-Review","description":"Code-Review","value":"2","oldValue":"0"},{"type":"Workflow","description":"Workflow","value":"1","oldValue":"0"}],"comment":"Patch Set 4: Code-Review+2 Workflow+1\n\n(3 comments)\n\nThanks, this is much easier to follow than the earlier patch sets. I\u0027d\nstill like to see the retry count in the log line, but that can be a\nfollow-up. Two small things that I noticed and that don\u0027t block it:\n\n- \"wait\" is spelled `waitt` in the release note;\n- the test named test_resync_twice runs the loop three times.\n\nrecheck isn\u0027t needed: the grenade job failed on a mirror that is back.","patchSet":{"number":4,"revision":"b72e90d5c6f1483a9d07e5184c2ba6f3901d7e5c","parents":["d8a1740f5b3e92c6670c1f4e8b5d29a7063fe11a"],"ref":"refs/changes/06/873406/4","uploader":{"name":"Pavel Kříž","email":"pkriz@example.net","username":"pkriz"},"createdOn":1676392010,"author":{"name":"Pavel Kříž","email":"pkriz@example.net","username":"pkriz"},"kind":"TRIVIAL_REBASE","sizeInsertions":58,"sizeDeletions":-11},"change":{"project":"openstack/neutron","branch":"stable/2023.1","topic":"bug/2007110","id":"Ic0a4d7e2f98b16530cd2ab7f41e6c8093b5d7f12","number":873406,"subject":"Wait for the metadata port before a network is ready","owner":{"name":"Pavel Kříž","email":"pkriz@example.net","username":"pkriz"},"url":"https://review.example.org/c/openstack/neutron/+/873406","commitMessage":"Wait for the metadata port before a network is ready\n\nA DHCP agent that is restarted reports a network as ready as soon as\ndnsmasq runs. Where the metadata port hasn\u0027t got its address yet, the\nfirst boot of an instance finds no route to 169.254.169.254 and falls\nback to a config drive.\n\nMake `configure_dhcp_for_network` return the port and have the resync\nloop try again, at most five times, until its address is there.\n\nCloses-Bug: #2007110\nChange-Id: Ic0a4d7e2f98b16530cd2ab7f41e6c8093b5d7f12\n(cherry picked from commit 0d6f3e9a7c81b2454ef09a6d7b3c58e1f2a49d60)\n","createdOn":1676021144,"lastUpdated":1676473301,"open":true,"status":"NEW"},"type":"comment-added","eventCreatedOn":1676473302}
        kind "comment-added"
        project "openstack/neutron"
        branch "stable/2023.1"
        change 873406
        patchset 4
        comment "Patch Set 4: Code-Review+2 Workflow+1\n\n(3 comments)\n\nThanks, this is much easier to follow than the earlier patch sets. I'd\nstill like to see the retry count in the log line, but that can be a\nfollow-up. Two small things that I noticed and that don't block it:\n\n- \"wait\" is spelled `waitt` in the release note;\n- the test named test_resync_twice runs the loop three times.\n\nrecheck isn't needed: the grenade job failed on a mirror that is back."
        username "mlhsu"
        email "meiling@example.com"
        approval "verified" 1
        approval "code-review" 2
        approval "workflow" 1

        read {"submitter":{"name":"Zuul","username":"zuul"},"newRev":"61d0be4f97a2c3588e1d6f02b9c74a5d3e8f1270","patchSet":{"number":12,"revision":"e0547cbd91f82a6634d17c90ab5e3f6208d4b19f","parents":["7fb3180e6dc2495a81f06b3c7d9e52a4408c1fd6","0b9d6e71f4c83a2599de10c75fa84b36d27e81c4"],"ref":"refs/changes/05/871905/12","uploader":{"name":"Inês Carvalho","email":"ines.carvalho@example.org","username":"inesc"},"createdOn":1675852400,"author":{"name":"Tom O\u0027Hara","email":"tom@example.com","username":"tohara"},"kind":"NO_CODE_CHANGE","sizeInsertions":23,"sizeDeletions":-188},"change":{"project":"openstack/glance","branch":"master","topic":"tenacity","id":"I90ac2d6be7f0451398cd62e1f7ab04c58d3e9b76","number":871905,"subject":"Drop the copies of oslo\u0027s retry helpers","owner":{"name":"Tom O\u0027Hara","email":"tom@example.com","username":"tohara"},"url":"https://review.example.org/c/openstack/glance/+/871905","commitMessage":"Drop the copies of oslo\u0027s retry helpers\n\nThe three copies under glance/common have drifted apart, and only one\nof them honours Retry-After. Use tenacity, as every other caller in\nthis repository does.\n\nChange-Id: I90ac2d6be7f0451398cd62e1f7ab04c58d3e9b76\n","createdOn":1674205611,"lastUpdated":1676474555,"open":false,"status":"MERGED"},"type":"change-merged","eventCreatedOn":1676474555}
        kind "change-merged"
        project "openstack/glance"
        branch "master"
        change 871905
        patchset 12
        username "zuul"

        read {"abandoner":{"name":"Inês Carvalho","email":"ines.carvalho@example.org","username":"inesc"},"reason":"The requirements team doesn\u0027t take this one into a stable branch \u0026 it\u0027s unmaintained since June.","patchSet":{"number":"3","revision":"5c2f7e81d0b94a36a8ec01f7b62d95e430fa8c1b","parents":["a94be05d17f3862c0d5b7e92f41c6a803e97d25f"],"ref":"refs/changes/14/598214/3","uploader":{"name":"Proposal Bot","email":"proposal@example.org","username":"proposal-bot"},"createdOn":1664800110,"author":{"name":"Proposal Bot","email":"proposal@example.org","username":"proposal-bot"},"kind":"REWORK","sizeInsertions":1,"sizeDeletions":-1},"change":{"project":"openstack/heat","branch":"stable/zed","id":"I17e0c5b9d3f2486aa0c95d7e1b38f604c2da9b53","number":"598214","subject":"Bump the SQLAlchemy constraint","owner":{"name":"Proposal Bot","email":"proposal@example.org","username":"proposal-bot"},"url":"https://review.example.org/c/openstack/heat/+/598214","commitMessage":"Bump the SQLAlchemy constraint\n\nChange-Id: I17e0c5b9d3f2486aa0c95d7e1b38f604c2da9b53\n","createdOn":1664532007,"lastUpdated":1676475010,"open":false,"status":"ABANDONED"},"type":"change-abandoned","eventCreatedOn":1676475010}
        kind "change-abandoned"
        project "openstack/heat"
        branch "stable/zed"
        change 598214
        patchset 3
        username "inesc"
        email "ines.carvalho@example.org"

        read {"restorer":{"name":"Tom O\u0027Hara","email":"tom@example.com","username":"tohara"},"reason":"Picked up again for the next cycle","patchSet":{"number":2,"revision":"af1d39c806b7e254d9f07c1b36ae85d2407b9ce3","parents":["c6e28fb4901d7a53fe04b91d6c87ae2503d1f49b"],"ref":"refs/changes/77/861177/2","uploader":{"name":"Mei-Ling Hsu","email":"meiling@example.com","username":"mlhsu"},"createdOn":1666101532,"author":{"name":"Mei-Ling Hsu","email":"meiling@example.com","username":"mlhsu"},"kind":"REWORK","sizeInsertions":77,"sizeDeletions":-3},"change":{"project":"openstack/keystone","branch":"master","id":"I3e7b90c4a1d2568f0b3d7ce94fa8612b5d09ce71","number":861177,"subject":"Cache the catalog per region","owner":{"name":"Mei-Ling Hsu","email":"meiling@example.com","username":"mlhsu"},"url":"https://review.example.org/c/openstack/keystone/+/861177","commitMessage":"Cache the catalog per region\n\nPartial-Bug: #1989020\nChange-Id: I3e7b90c4a1d2568f0b3d7ce94fa8612b5d09ce71\n","createdOn":1665581009,"lastUpdated":1676475921,"open":true,"status":"NEW"},"type":"change-restored","eventCreatedOn":1676475921}
        kind "change-restored"
        project "openstack/keystone"
        branch "master"
        change 861177
        patchset 2
        username "tohara"
        email "tom@example.com"

        # reads changes without an account
        read {"deleter":{"name":"Dana Okafor","email":"dana.okafor@example.org","username":"dokafor"},"change":{"project":"openstack/sandbox","branch":"master","id":"I8d4c01e7b9f2a365d0be7148c3fa9602e5b7d1c8","number":874402,"subject":"DNM: does the gate still work?","owner":{"name":"Dana Okafor","email":"dana.okafor@example.org","username":"dokafor"},"url":"https://review.example.org/c/openstack/sandbox/+/874402","commitMessage":"DNM: does the gate still work?\n\nChange-Id: I8d4c01e7b9f2a365d0be7148c3fa9602e5b7d1c8\n","createdOn":1676475001,"lastUpdated":1676476218,"open":true,"status":"NEW","wip":true},"type":"change-deleted","eventCreatedOn":1676476218}
        kind "change-deleted"
        project "openstack/sandbox"
        branch "master"
        change 874402

        read {"changer":{"name":"Mei-Ling Hsu","email":"meiling@example.com","username":"mlhsu"},"oldTopic":"tls-everywhere","change":{"project":"openstack/kolla-ansible","branch":"stable/2023.1","topic":"tls-renewal","id":"Ib04f9e2c7d81a63590cf7be1d42a8f6350e9b7cd","number":870036,"subject":"Renew certificates before they expire","owner":{"name":"Mei-Ling Hsu","email":"meiling@example.com","username":"mlhsu"},"url":"https://review.example.org/c/openstack/kolla-ansible/+/870036","commitMessage":"Renew certificates before they expire\n\nChange-Id: Ib04f9e2c7d81a63590cf7be1d42a8f6350e9b7cd\n","createdOn":1673427770,"lastUpdated":1676478001,"open":true,"status":"NEW"},"type":"topic-changed","eventCreatedOn":1676478001}
        kind "topic-changed"
        project "openstack/kolla-ansible"
        branch "stable/2023.1"
        change 870036

        read {"editor":{"name":"Dana Okafor","email":"dana.okafor@example.org","username":"dokafor"},"added":["ready-for-review"],"removed":["needs-spec","volumes"],"hashtags":["ready-for-review","review-priority"],"change":{"project":"openstack/nova-specs","branch":"master","id":"I2ca8d90e7b4f1365fc0e9d71b8a32f6405d7e9b1","number":865520,"subject":"Spec: ordered volume detach","owner":{"name":"Dana Okafor","email":"dana.okafor@example.org","username":"dokafor"},"url":"https://review.example.org/c/openstack/nova-specs/+/865520","commitMessage":"Spec: ordered volume detach\n\nChange-Id: I2ca8d90e7b4f1365fc0e9d71b8a32f6405d7e9b1\n","hashtags":["ready-for-review","review-priority"],"createdOn":1669200345,"lastUpdated":1676478222,"open":true,"status":"NEW"},"type":"hashtags-changed","eventCreatedOn":1676478222}
        kind "hashtags-changed"
        project "openstack/nova-specs"
        branch "master"
        change 865520

        read {"changer":{"name":"Inês Carvalho","email":"ines.carvalho@example.org","username":"inesc"},"patchSet":{"number":1,"revision":"d40b7e9c15f8a2633b0e7dc9f1a845620cb7d9e3","parents":["f28ca90d7b1e3564ac07de91b8f5a362417e0dcb"],"ref":"refs/changes/88/874488/1","uploader":{"name":"Inês Carvalho","email":"ines.carvalho@example.org","username":"inesc"},"createdOn":1676470300,"author":{"name":"Inês Carvalho","email":"ines.carvalho@example.org","username":"inesc"},"kind":"REWORK","sizeInsertions":66,"sizeDeletions":0},"change":{"project":"zuul/zuul-jobs","branch":"master","id":"I7d19be0c42fa8635d0e7c9b1f8a4362e05bd7c9f","number":874488,"subject":"Add a role that prunes old container images","owner":{"name":"Inês Carvalho","email":"ines.carvalho@example.org","username":"inesc"},"url":"https://review.example.org/c/zuul/zuul-jobs/+/874488","commitMessage":"Add a role that prunes old container images\n\nChange-Id: I7d19be0c42fa8635d0e7c9b1f8a4362e05bd7c9f\n","createdOn":1676470300,"lastUpdated":1676478900,"open":true,"status":"NEW","wip":true},"type":"wip-state-changed","eventCreatedOn":1676478900}
        kind "wip-state-changed"
        project "zuul/zuul-jobs"
        branch "master"
        change 874488
        patchset 1

        read {"changer":{"name":"Tom O\u0027Hara","email":"tom@example.com","username":"tohara"},"patchSet":{"number":2,"revision":"7b9e0d4c1fa853620ebd79c1f84a2635d07ce9b8","parents":["0e4c7bd91f8a5263d9b07e1c84fa36250b7de9c4"],"ref":"refs/changes/01/874001/2","uploader":{"name":"Tom O\u0027Hara","email":"tom@example.com","username":"tohara"},"createdOn":1676290780,"author":{"name":"Tom O\u0027Hara","email":"tom@example.com","username":"tohara"},"kind":"NO_CHANGE","sizeInsertions":9,"sizeDeletions":-4},"change":{"project":"openstack/barbican","branch":"stable/yoga","id":"I05e9d7cb84fa1263b0d9e7f1c8a5362e4b07d9c1","number":874001,"subject":"Check the owner of an order before it is listed","owner":{"name":"Tom O\u0027Hara","email":"tom@example.com","username":"tohara"},"url":"https://review.example.org/c/openstack/barbican/+/874001","commitMessage":"Check the owner of an order before it is listed\n\nCloses-Bug: #2004421\nChange-Id: I05e9d7cb84fa1263b0d9e7f1c8a5362e4b07d9c1\n","createdOn":1676288133,"lastUpdated":1676479100,"open":true,"status":"NEW","private":true},"type":"private-state-changed","eventCreatedOn":1676479100}
        kind "private-state-changed"
        project "openstack/barbican"
        branch "stable/yoga"
        change 874001
        patchset 2

        read {"changer":{"name":"Pavel Kříž","email":"pkriz@example.net","username":"pkriz"},"oldAssignee":{"name":"Inês Carvalho","email":"ines.carvalho@example.org","username":"inesc"},"change":{"project":"openstack/swift","branch":"feature/losf","id":"I0bd97c4e1f8a5362d0e9b7c1f84a36251e7d0b9c","number":640281,"subject":"Index the volumes at start-up","owner":{"name":"Inês Carvalho","email":"ines.carvalho@example.org","username":"inesc"},"url":"https://review.example.org/c/openstack/swift/+/640281","commitMessage":"Index the volumes at start-up\n\nChange-Id: I0bd97c4e1f8a5362d0e9b7c1f84a36251e7d0b9c\n","createdOn":1551880000,"lastUpdated":1676480002,"open":true,"status":"NEW"},"type":"assignee-changed","eventCreatedOn":1676480002}
        kind "assignee-changed"
        project "openstack/swift"
        branch "feature/losf"
        change 640281

        # reads reviewers
        read {"reviewer":{"name":"Inês Carvalho","email":"ines.carvalho@example.org","username":"inesc"},"adder":{"name":"Pavel Kříž","email":"pkriz@example.net","username":"pkriz"},"patchSet":{"number":5,"revision":"18d6fa0b73ce9452e7b01d84c96f35a2d0be7c49","parents":["94c0de71bf5a8236e1d70bc4f8a9356207ed18bf"],"ref":"refs/changes/18/872818/5","uploader":{"name":"Pavel Kříž","email":"pkriz@example.net","username":"pkriz"},"createdOn":1676300912,"author":{"name":"Pavel Kříž","email":"pkriz@example.net","username":"pkriz"},"kind":"MERGE_FIRST_PARENT_UPDATE","sizeInsertions":140,"sizeDeletions":-22},"change":{"project":"openstack/ironic","branch":"bugfix/21.2","topic":"story/2010576","id":"I6fb2c9d81e07a354be90d7c1f2a8354b6d0e97c3","number":872818,"subject":"Power off before the BIOS settings are applied","owner":{"name":"Pavel Kříž","email":"pkriz@example.net","username":"pkriz"},"url":"https://review.example.org/c/openstack/ironic/+/872818","commitMessage":"Power off before the BIOS settings are applied\n\nStory: 2010576\nTask: 47312\nChange-Id: I6fb2c9d81e07a354be90d7c1f2a8354b6d0e97c3\n","createdOn":1675339876,"lastUpdated":1676477040,"open":true,"status":"NEW"},"type":"reviewer-added","eventCreatedOn":1676477040}
        kind "reviewer-added"
        project "openstack/ironic"
        branch "bugfix/21.2"
        change 872818
        patchset 5

        read {"reviewer":{"name":"Tom O\u0027Hara","email":"tom@example.com","username":"tohara"},"remover":{"name":"Pavel Kříž","email":"pkriz@example.net","username":"pkriz"},"approvals":[{"type":"Code-Review","description":"Code-Review","value":"-1","grantedOn":1676310044,"by":{"name":"Tom O\u0027Hara","email":"tom@example.com","username":"tohara"}},{"type":"RP","description":"Review Priority","value":"+2","grantedOn":1676310044,"by":{"name":"Tom O\u0027Hara","email":"tom@example.com","username":"tohara"}}],"comment":"Removed reviewer Tom O\u0027Hara with the following votes:\n\n* Code-Review-1 by Tom O\u0027Hara \u003ctom@example.com\u003e\n* Review Priority+2 by Tom O\u0027Hara \u003ctom@example.com\u003e\n","patchSet":{"number":5,"revision":"18d6fa0b73ce9452e7b01d84c96f35a2d0be7c49","parents":["94c0de71bf5a8236e1d70bc4f8a9356207ed18bf"],"ref":"refs/changes/18/872818/5","uploader":{"name":"Pavel Kříž","email":"pkriz@example.net","username":"pkriz"},"createdOn":1676300912,"author":{"name":"Pavel Kříž","email":"pkriz@example.net","username":"pkriz"},"kind":"MERGE_FIRST_PARENT_UPDATE","sizeInsertions":140,"sizeDeletions":-22},"change":{"project":"openstack/ironic","branch":"bugfix/21.2","topic":"story/2010576","id":"I6fb2c9d81e07a354be90d7c1f2a8354b6d0e97c3","number":872818,"subject":"Power off before the BIOS settings are applied","owner":{"name":"Pavel Kříž","email":"pkriz@example.net","username":"pkriz"},"url":"https://review.example.org/c/openstack/ironic/+/872818","commitMessage":"Power off before the BIOS settings are applied\n\nStory: 2010576\nTask: 47312\nChange-Id: I6fb2c9d81e07a354be90d7c1f2a8354b6d0e97c3\n","createdOn":1675339876,"lastUpdated":1676477390,"open":true,"status":"NEW"},"type":"reviewer-deleted","eventCreatedOn":1676477390}
        kind "reviewer-deleted"
        project "openstack/ironic"
        branch "bugfix/21.2"
        change 872818
        patchset 5
        comment "Removed reviewer Tom O'Hara with the following votes:\n\n* Code-Review-1 by Tom O'Hara <tom@example.com>\n* Review Priority+2 by Tom O'Hara <tom@example.com>\n"
        approval "code-review" -1
        approval "review-priority" 2

        read {"reviewer":{"name":"Dana Okafor","email":"dana.okafor@example.org","username":"dokafor"},"remover":{"name":"Mei-Ling Hsu","email":"meiling@example.com","username":"mlhsu"},"approvals":[{"type":"Code-Review","description":"Code-Review","value":"0","oldValue":"-2"}],"comment":"Removed Code-Review-2 by Dana Okafor \u003cdana.okafor@example.org\u003e\n","patchSet":{"number":"10","revision":"4d7c0be91f8a5362d9e07bc1f84a36250e7bd9c2","parents":["b90d7e4c1f8a5263ce07bd91f84a36250b9e7dc1"],"ref":"refs/changes/90/582990/10","uploader":{"name":"Mei-Ling Hsu","email":"meiling@example.com","username":"mlhsu"},"createdOn":1661001212,"author":{"name":"Mei-Ling Hsu","email":"meiling@example.com","username":"mlhsu"},"kind":"TRIVIAL_REBASE_WITH_MESSAGE_UPDATE","sizeInsertions":204,"sizeDeletions":-204},"change":{"project":"openstack/horizon","branch":"master","id":"Ifc0b9e7d41a8635e2d07bc91f8a43652e0d7b9c6","number":"582990","subject":"Übersetzung der Seite „Volumes“","owner":{"name":"Mei-Ling Hsu","email":"meiling@example.com","username":"mlhsu"},"url":"https://review.example.org/c/openstack/horizon/+/582990","commitMessage":"Übersetzung der Seite „Volumes“\n\nChange-Id: Ifc0b9e7d41a8635e2d07bc91f8a43652e0d7b9c6\n","createdOn":1660219444,"lastUpdated":1676479777,"open":true,"status":"NEW"},"type":"vote-deleted","eventCreatedOn":1676479777}
        kind "vote-deleted"
        project "openstack/horizon"
        branch "master"
        change 582990
        patchset 10
        comment "Removed Code-Review-2 by Dana Okafor <dana.okafor@example.org>\n"
        approval "code-review" 0

        # reads refs and the rest
        read {"submitter":{"name":"Release Team","email":"release@example.org","username":"release-bot"},"refUpdate":{"oldRev":"0000000000000000000000000000000000000000","newRev":"2e9c7d04f8b15a63c0ad94e7f16b8352dd07be41","refName":"refs/tags/21.2.0","project":"openstack/cinder"},"type":"ref-updated","eventCreatedOn":1676476777}
        kind "ref-updated"
        project "openstack/cinder"
        refname "refs/tags/21.2.0"
        newrev "2e9c7d04f8b15a63c0ad94e7f16b8352dd07be41"
        username "release-bot"
        email "release@example.org"

        read {"project":"openstack/nova","ref":"refs/heads/master","targetNode":"mirror02.example.org:22","targetUri":"ssh://replicator@mirror02.example.org:22/openstack/nova.git","status":"succeeded","refStatus":"OK","type":"ref-replicated","eventCreatedOn":1676476790}
        kind "ref-replicated"

        read {"project":"openstack/nova","ref":"refs/heads/master","nodesCount":8,"type":"ref-replication-done","eventCreatedOn":1676476794}
        kind "ref-replication-done"

        read {"projectName":"openstack/python-ironic-inspector-client","projectHead":"refs/heads/master","type":"project-created","eventCreatedOn":1676480333}
        kind "project-created"

        read {"type":"dropped-output","eventCreatedOn":1676480400}
        kind "dropped-output"
    "#;
    play(rt.alloc(), script)
}
