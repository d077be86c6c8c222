//! Tenants, their connections and their projects.
use super::{TENANTS, says};
use std::test::Fail;

#[test]
fn tenants_are_read(rt: HostRuntime) -> Result<(), Fail> {
    let tenants = r#"
        # projects have three forms

        [{"name":"main","source":{"a":{"config-projects":["text",{"key":{"include":[]}},"text",""],"untrusted-projects":[{"projects":["one",{"two":null}],"shadow":5},{"projects":{}},{"projects":[]},"other"]},"b":null,"c":{}}}]
        belongs 0 0 text -> true
        belongs 0 1 text -> false
        belongs 0 2 text -> false
        belongs 0 3 text -> false
        belongs 1 0 text -> false
        belongs 0 0 key -> true
        belongs 0 1 key -> false
        belongs 0 2 key -> false
        belongs 0 3 key -> false
        belongs 1 0 key -> false
        belongs 0 0 one -> true
        belongs 0 1 one -> false
        belongs 0 2 one -> false
        belongs 0 3 one -> false
        belongs 1 0 one -> false
        belongs 0 0 two -> true
        belongs 0 1 two -> false
        belongs 0 2 two -> false
        belongs 0 3 two -> false
        belongs 1 0 two -> false
        belongs 0 0 projects -> true
        belongs 0 1 projects -> false
        belongs 0 2 projects -> false
        belongs 0 3 projects -> false
        belongs 1 0 projects -> false
        belongs 0 0 other -> true
        belongs 0 1 other -> false
        belongs 0 2 other -> false
        belongs 0 3 other -> false
        belongs 1 0 other -> false
        belongs 0 0 empty -> true
        belongs 0 1 empty -> false
        belongs 0 2 empty -> false
        belongs 0 3 empty -> false
        belongs 1 0 empty -> false
        belongs 0 0 include -> false
        belongs 0 0 shadow -> false
        belongs 0 0 Text -> false
        belongs 0 0 tex -> false
        belongs 0 0 text2 -> false
        belongs 0 0 main -> false
        listed 0 1 -> true
        listed 0 2 -> true
        listed 0 3 -> false

        # a key projects without a list is a name

        [{"name":"main","source":{"a":{"config-projects":[{"projects":null}]},"b":{"config-projects":[{"projects":[{"projects":["deep"]}]}]},"c":{"config-projects":[{"projects":["x"],"y":1}]}}}]
        belongs 0 0 projects -> true
        belongs 0 1 projects -> true
        belongs 0 1 deep -> false
        belongs 0 2 projects -> false
        belongs 0 2 x -> true
        belongs 0 2 y -> false

        # connections are numbered over all tenants

        [{"name":"x","source":{"b":{"config-projects":["p"]}}},{"name":"y","source":{"a":{"config-projects":["q"]},"b":null}},{"name":"z"}]
        connections -> a b
        tenants -> x y z
        listed 0 0 -> false
        listed 0 1 -> true
        listed 1 0 -> true
        listed 1 1 -> true
        listed 2 0 -> false
        listed 2 1 -> false
        belongs 0 1 p -> true
        belongs 1 1 p -> false
        belongs 1 0 q -> true
        belongs 0 0 q -> false

        # a wrapped tenant is its inner object

        [{"tenant":null},{"tenant":null,"name":"plain"},{"source":5},{"x":1,"name":5,"tenant":{"name":"inner","source":{"a":{"config-projects":["p"]}}},"source":{"b":null}}]
        connections -> a
        tenants -> plain inner
        belongs 1 0 p -> true
        pipelines 9 -> nothing

        # what is absent of tenants

        [{},{"tenant":null},{"tenant":null,"name":"main","source":{"a":{"config-projects":["x"],"untrusted-projects":["y"]}}}]
        tenants -> main
        belongs 0 0 x -> true
        belongs 0 0 y -> true
    "#;
    says(rt.alloc(), TENANTS, tenants)
}
