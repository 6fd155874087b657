//! What threads may share.

/// Takes what may be sent to other threads and shared with them. It does nothing: that a call of it is accepted shows it of
/// the type.
pub fn crosses_threads<T: Send + Sync>(_value: &T) {}
