// How serving a peer ended.

/// How serving a peer ended.
#[derive(Clone, Copy, Debug, PartialEq, Eq)]
pub enum ServeEnd {
    /// The input ended between requests, or the last reply ends the connection.
    Ended,
    /// The input ended inside a request.
    Cut,
    /// The last request was to stop.
    Stopped,
    /// As many requests were answered as one connection may bring.
    Budget,
    /// The peer failed.
    PeerFault,
}

/// What came of serving a peer.
#[derive(Clone, Copy, Debug, PartialEq, Eq)]
pub struct Served {
    /// How it ended.
    pub end: ServeEnd,
    /// Whether a reply of status 400 or more was written whole.
    pub refused: bool,
}
