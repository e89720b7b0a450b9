//! Who hears of the applications of a run.
use machine::Application;

/// A listener hears of each application of a run, in order.
pub trait Listener {
    fn applied(&mut self, application: &Application);
}

/// Hears nothing.
#[derive(Clone, Copy)]
pub(crate) struct Silent;

impl Listener for Silent {
    fn applied(&mut self, _application: &Application) {}
}
