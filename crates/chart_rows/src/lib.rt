//! What a chart shows: its rows, where the lines of the parts and the rows stand, and the words.
//!
//! A [`Page`] is a list of rows, one for each event that is shown and one before the events of a `settle`, and what is
//! drawn of each is its [`Deed`]. Places are
//! in pixels, from the left and from the top. Functions write the words beside one mark each, and the titles of arrows.
#![tactic(auto)]

mod layout;
mod row;
mod row_words;
mod titles;
mod words;

pub use layout::{
    Frame, MOST_LETTERS, Parts, Point, RESULTS_LEFT, Way, behind, departure, finish_of, first_line,
    levels_left, memory_x, middle, other, requester_x, start_of, switch_x, text_line, text_width,
    thirds, top_of, way_of, width_of,
};
pub use row::{
    Carried, Deed, DllpSent, Flying, Kind, Open, PacketSent, Page, Replay, Row, Said, Shown,
    kind_of, shown_of,
};
pub use row_words::{letters_of, write_event_words, write_result_words, write_row_words};
pub use titles::{
    put_lane, put_on, write_absent, write_dllp_title, write_open_title, write_packet_title,
};
pub use words::{
    arrival_words, kind_name, write_collected, write_dllp, write_dllp_arrival, write_expired,
    write_forwarded, write_omitted, write_requester, write_sent, write_served, write_shown,
    write_submitted,
};
