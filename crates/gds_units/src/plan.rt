use gds_epoch::UnitBytes;

/// Units that are changed together, and the bytes that they are to have.
#[derive(Debug, Drop)]
pub struct Plan {
    /// The units, each once.
    pub units: Vec<UnitBytes>,
}
