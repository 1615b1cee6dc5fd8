//! Gates.

/// What a worker calls around its tasks. It promises nothing but to return, so no result may rest on it: a test holds workers here and
/// looks at their order.
pub trait Gate: Sync {
    /// Before the worker begins the task. Workers and tasks are numbered from 0.
    fn at_task(&self, worker: u32, task: u64);

    /// After all proposals of the task were answered: `answered` is their number.
    fn at_answer(&self, worker: u32, task: u64, answered: u64);
}

/// Lets every worker pass at once.
#[derive(Clone, Copy, Debug, Default)]
pub struct OpenGate;

impl Gate for OpenGate {
    fn at_task(&self, _worker: u32, _task: u64) {}

    fn at_answer(&self, _worker: u32, _task: u64, _answered: u64) {}
}
