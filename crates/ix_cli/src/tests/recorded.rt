use ix_edge::{Files, LoadFault};
use std::alloc::{AllocError, Global};

/// What was asked of files: a name, and the most bytes that may be answered.
#[derive(Debug, Drop)]
pub struct Load {
    pub name: String,
    pub most: u64,
}

/// Files that record each load before they do it.
#[derive(Debug, Drop)]
pub struct RecordedFiles<F> {
    inner: F,
    loads: Vec<Load>,
}

impl<F: Files> RecordedFiles<F> {
    pub fn new(alloc: Global, inner: F) -> RecordedFiles<F> {
        RecordedFiles {
            inner,
            loads: Vec::new(alloc),
        }
    }

    /// The loads so far, from the first to the last.
    pub fn loads(&self) -> &[Load] {
        self.loads.as_slice()
    }
}

impl<F: Files> Files for RecordedFiles<F> {
    ghost told = { λ f. F.told f.inner };

    ghost faults = { λ f name. F.faults f.inner name };

    fn faults(&self, name: &str) -> u64 {
        self.inner.faults(name)
    }

    fn load(&mut self, alloc: Global, name: &str, most: u64) -> Result<Vec<u8>, LoadFault> {
        if record(alloc, &mut self.loads, name, most).is_err() {
            return Err(LoadFault::Memory);
        }
        self.inner.load(alloc, name, most)
    }
}

fn record(alloc: Global, loads: &mut Vec<Load>, name: &str, most: u64) -> Result<(), AllocError> {
    loads.push(Load {
        name: String::from_str(alloc, name)?,
        most,
    })?;
    Ok(())
}
