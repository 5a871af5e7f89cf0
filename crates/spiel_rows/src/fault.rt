//! Why lines are no row, and the text of each fault.

use spiel_frac::NoMemory;

/// What is wrong with a row.
#[derive(Clone, Copy)]
pub enum RowFault {
    /// The line begins with none of the marks.
    UnknownLine,
    /// What follows a backslash stands for nothing.
    UnknownEscape,
    /// A quotation doesn't end on its line, or no space follows it.
    UnendedQuotation,
    /// A word of the command isn't UTF-8.
    NoText,
    /// There is a number, and it isn't one that can stand here.
    BadNumber,
    /// There is a line of this kind already.
    SecondLine,
    /// Two lines have the word `each`.
    SecondEach,
    /// The row doesn't begin with a comment.
    NoComment,
    /// A comment stands behind the words.
    LateComment,
    /// A line stands before the words, or there are none.
    NoWords,
    /// There isn't one name on the line of a file.
    NotOneName,
    /// A line of a file stands before all names of files.
    NoFile,
    /// There is no line with a status.
    NoStatus,
}

impl RowFault {
    /// What is told of it.
    pub fn text(self) -> &'static [u8] {
        match self {
            RowFault::UnknownLine => b"unknown line",
            RowFault::UnknownEscape => b"unknown escape",
            RowFault::UnendedQuotation => b"unended quotation",
            RowFault::NoText => b"word that isn't UTF-8",
            RowFault::BadNumber => b"bad number",
            RowFault::SecondLine => b"second line of its kind",
            RowFault::SecondEach => b"second each",
            RowFault::NoComment => b"no comment",
            RowFault::LateComment => b"late comment",
            RowFault::NoWords => b"no words",
            RowFault::NotOneName => b"not one name",
            RowFault::NoFile => b"no file",
            RowFault::NoStatus => b"no status",
        }
    }
}

/// Why a row isn't read.
#[derive(Clone, Copy)]
pub enum Unread {
    /// Memory ran out.
    NoMemory,
    /// It is no row.
    NoRow(RowFault),
}

impl From<NoMemory> for Unread {
    fn from(_error: NoMemory) -> Unread {
        Unread::NoMemory
    }
}

impl From<RowFault> for Unread {
    fn from(fault: RowFault) -> Unread {
        Unread::NoRow(fault)
    }
}
