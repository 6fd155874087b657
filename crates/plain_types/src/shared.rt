//! What may be shared by threads.

/// Takes a type that may go to another thread and be shared by threads. A call of it shows that the type may.
pub fn crosses_threads<T: Send + Sync>() {}
