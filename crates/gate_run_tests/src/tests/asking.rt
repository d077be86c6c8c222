//! What asks for a stop while a run goes on.
use gate_pipeline::Pipeline;
use gate_record::{PipelineId, TenantId};
use gate_run::{Gate, Posts};
use gate_source::StopCause;
use std::sync::{Mutex, Wait};

// Posts, and how many actions are to begin before they ask.
#[derive(Drop)]
struct Asking {
    posts: Posts,
    left: u32,
}

/// A gate that asks for a stop before each action, once so many have begun.
#[derive(Drop)]
pub(crate) struct Stops {
    asking: Mutex<Asking>,
}

impl Stops {
    pub(crate) fn behind(left: u32, posts: Posts) -> Stops {
        Stops {
            asking: Mutex::new(Asking { posts, left }),
        }
    }
}

impl Gate for Stops {
    fn before<R: Wait>(&self, rt: &R, _: TenantId, _: PipelineId, _: &Pipeline) {
        count_down(&mut self.asking.lock(rt));
    }
}

fn count_down(asking: &mut Asking) {
    if asking.left > 0 {
        asking.left -= 1;
        return;
    }
    let _ = asking.posts.stop(StopCause::Caller);
}
