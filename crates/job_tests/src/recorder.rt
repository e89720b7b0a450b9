//! A listener that records what it hears.
use arrayvec::ArrayVec;
use engine::Listener;
use machine::Application;

/// The rule, the active label, and how many facts left and were given.
type Heard = (u8, u32, u32, u32);

/// The first four applications.
#[derive(Drop)]
pub(crate) struct Recorder {
    pub(crate) heard: ArrayVec<Heard, 4>,
}

pub(crate) fn new_recorder() -> Recorder {
    Recorder {
        heard: ArrayVec::new(),
    }
}

impl Listener for Recorder {
    fn applied(&mut self, application: &Application) {
        let Application {
            rule,
            active,
            removed,
            added,
            ..
        } = *application;
        let _ = self.heard.try_push((rule, active, removed, added));
    }
}
