//! What a run knows of the syncs of its files.

/// Whether the job file is open with its entry on the disk, and whether a sync of it or of its folder has failed.
///
/// The system may drop what it could not write, and still let a later sync succeed. So after a failed sync no other is asked for.
#[derive(Clone, Copy)]
pub struct JobSyncs {
    pub entry: bool,
    pub failed: bool,
}

/// Whether cells may have been written since they were last synced, whether they haven't been synced in this run yet, and whether a sync of
/// them has failed.
#[derive(Clone, Copy)]
pub struct CellsSyncs {
    pub pending: bool,
    pub fresh: bool,
    pub failed: bool,
}
