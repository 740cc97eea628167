// Why a script ends early.
use script::problem::Problem;
use std::io;
use thiserror::Error;

#[derive(Debug, Drop, Error)]
pub enum Stop<'a> {
    #[error("{0}")]
    Script(#[from] Problem<'a>),
    #[error("{0}")]
    Output(#[from] io::Error),
    #[error("a field could not be printed")]
    LostField,
}
