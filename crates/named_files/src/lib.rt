//! Files opened by name: a program's or a text's bytes, and the files of a county (TIGER/Line 2006).
#![tactic(auto)]

mod county;
mod files;
mod open_file;

pub use county::{CountyFileFault, close_county, name_end, open_county};
pub use files::{
    FileFault, FileSystem, Files, INPUT_BUFFER, Input, ProgramInputFault, SystemFiles, open,
    read_file, read_file_prefix, read_program, read_program_file, read_short_file, read_to_end,
};
pub use open_file::{FileName, OpenFile};
