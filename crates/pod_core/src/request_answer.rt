//! [`Answer`]: what the holder of a pod hands to the connection for one request.
use pod_base::{Moment, Response};

/// The answer to a request: the response, the place of the history at which it was answered, and
/// the moment of the request, which is that of its entry where it has one.
#[derive(Debug, Drop)]
pub struct Answer {
    pub response: Response,
    pub place: u64,
    pub moment: Moment,
}
