// Why a run ends before its input does.
use std::io;
use thiserror::Error;

#[derive(Debug, Drop, Error)]
pub enum Failure {
    #[error("cannot read the arguments: {0}")]
    Arguments(io::Error),
    #[error("unknown option {0}; --help says what there is")]
    UnknownOption(String),
    #[error("more than one file; --help says what is read")]
    SeveralFiles,
    #[error("cannot open {0}: {1}")]
    Open(String, io::Error),
    #[error("cannot read the records: {0}")]
    Read(io::Error),
    #[error("cannot write the packages: {0}")]
    Write(io::Error),
}
