// The front door: every call that a user makes, by subject, and the types that it needs. What is not here is not promised to stay.
// docs/CALLS.md says of each call what it does, what it refuses and what it costs.
#![tactic(auto)]

// What calls answer, in any subject: the refusals, what stands first in a text, and how long an output is always enough.
pub use convert_point::{Target, most};
pub use terms::{Cause, First, Point, Refusal};

// Texts of UTF-8 bytes.
pub mod bytes {
    pub use convert_from_utf8::{repair_to_units, to_page, to_points, to_units};
    pub use utf8::{CLASSES, point, point_by, segment, segment_by};
    pub use utf8_check::check;
    pub use utf8_repair::repair;
}

// Texts of UTF-16 units.
pub mod units {
    pub use convert_from_utf16::{repair, repair_to_bytes, to_bytes, to_points};
    pub use utf16::{point, segment};
    pub use utf16_check::check;
}

// Texts of code points.
pub mod points {
    pub use code_points::{check, point, segment};
    pub use convert_from_code_points::{to_bytes, to_units};
}

// Texts of old single-byte pages.
pub mod pages {
    pub use convert_from_page::to_bytes;
    pub use page::Page;
}

// Repair of a byte text that comes in pieces, with a list of its damages; and the recorder's watch, byte by byte.
pub mod pieces {
    pub use decoder::{Fed, Finished, Started, Totals, feed, finish, most, start};
    pub use decoder_watch::{Watched, step, watch};
    pub use terms::Decoder;
}

// Repair of a text of UTF-16 units that comes in pieces, written as bytes.
pub mod unit_pieces {
    pub use decoder_from_utf16::{
        Fed, Finished, Started, Totals, UnitDecoder, feed, finish, most, start,
    };
}

// Repair of a byte text that comes in pieces, written as UTF-16 units.
pub mod pieces_to_units {
    pub use decoder::{Fed, Finished, Started, Totals, start};
    pub use decoder_to_utf16::{feed, finish, most};
    pub use terms::Decoder;
}

// Places in a byte text, by bytes, UTF-16 units, code points or lines; and cutting.
pub mod places {
    pub use place::{Bytes, Lines, Offset, Place, Points, Units};
    pub use place_cut::{cut_bytes, cut_points, cut_units, last};
    pub use place_lookup::{at_byte, at_line, at_point, at_unit, resume};
}

// Where a phrase stands in a text, and the text from there on.
pub mod phrases {
    pub use find::{find, find_plain, find_rest};
}

// An index of a byte text: built in pieces, looked up, audited.
pub mod index {
    pub use index_audit::audit;
    pub use index_build::{Builder, Built, feed, finish};
    pub use index_checkpoint::needed;
    pub use index_lookup::{at_byte, at_line, at_point, at_unit};
}
