//! What is drawn.

/// What a request is to the last answer.
#[derive(Clone, Copy)]
pub enum Role {
    /// It was answered last.
    Last,
    /// Its answer is one of those that have no history together with the last one.
    Against,
    /// What is told of these answers names it.
    Named,
    Other,
}

/// A request. Columns are counted from 0.
#[derive(Drop)]
pub struct PictureRequest {
    pub requester: u8,
    /// The column of its submission.
    pub from: u32,
    /// The column where its bar ends, and whether it is open there.
    pub to: u32,
    pub is_open: bool,
    /// Its place in a history, if it has one.
    pub place: Option<u32>,
    pub role: Role,
    /// What was asked, and what was answered.
    pub asked: Vec<u8>,
    pub answered: Vec<u8>,
    /// All that is told where one points at the bar.
    pub title: Vec<u8>,
}

/// The first request, by its place among all, acts before the second.
#[derive(Drop)]
pub struct Arrow {
    pub from: usize,
    pub to: usize,
    pub why: Vec<u8>,
}

/// A line of text.
#[derive(Drop)]
pub struct Line {
    pub text: Vec<u8>,
}

/// What is drawn: of requests the first 20, of arrows, too, and of columns and lines the first 40.
#[derive(Drop)]
pub struct Scene {
    /// What stands above, in red, and below that.
    pub title: Vec<u8>,
    pub note: Vec<u8>,
    /// What the places of requests in a history are.
    pub places: Vec<u8>,
    /// The line of the log that each column is.
    pub columns: Vec<u64>,
    /// Those of a requester one after the other.
    pub requests: Vec<PictureRequest>,
    pub arrows: Vec<Arrow>,
    /// What stands below the rows.
    pub lines: Vec<Line>,
}
