//! What a run keeps for each of its threads.

/// One value for each thread of a run, by the kind of thread. A run makes a work for each thread, has a handle for each thread that runs,
/// and gets an end from each thread that has returned. The three are lists of the same form, so one type stands for them.
#[derive(Drop)]
pub(crate) struct ByThread<R, F, T, W> {
    /// Of the readers, by connection number.
    pub(crate) readers: Vec<R>,
    /// Of the forwarders, by connection number.
    pub(crate) forwarders: Vec<F>,
    /// Of the tenants' workers, by tenant number.
    pub(crate) tenant_workers: Vec<T>,
    /// Of the pipelines' workers, by tenant number and pipeline number.
    pub(crate) workers: Vec<Vec<W>>,
}
