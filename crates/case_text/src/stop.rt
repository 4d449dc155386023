// Why a case is not answered to its end.
use std::alloc::AllocError;
use std::io;
use thiserror::Error;

#[derive(Debug, Drop, Error)]
pub enum Stop {
    #[error("broken header")]
    Header,
    #[error("broken case")]
    Case,
    #[error("broken rooms")]
    Rooms,
    #[error("broken queries")]
    Queries,
    #[error("broken batch")]
    Batch,
    #[error("broken log")]
    Log,
    #[error(transparent)]
    Io(#[from] io::Error),
    #[error(transparent)]
    Memory(#[from(alloc)] AllocError),
}
