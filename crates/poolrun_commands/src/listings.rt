//! The objects of a record's entries, written as they come.

use crate::objects::write_object;
use std::alloc::Global;
use tp_audit::auditor::Auditor;
use tp_audit_plain::summary::Flaw;
use tp_record::entries::Entry;
use tp_text_record::reading::Taker;
use tp_text_record::versions::Version;
use tp_types::configs::Config;
use tp_types::refusals::PoolError;

/// The objects of the entries that it takes, as JSON, up to the first flaw.
#[derive(Drop)]
pub(crate) struct Listing {
    alloc: Global,
    is_flawed: bool,
    /// What the entries so far say of the pool.
    pub(crate) auditor: Auditor,
    /// What was written.
    pub(crate) text: String,
}

impl Taker for Listing {
    type Question = ();

    ghost about = { λ q t v c. Unit {0} };

    ghost took = { λ t es. Unit {0} };

    fn new(
        alloc: Global,
        _question: &(),
        _version: Version,
        config: &Config,
    ) -> Result<Listing, PoolError> {
        match Auditor::new(alloc, config) {
            Ok(auditor) => Ok(Listing {
                alloc,
                is_flawed: false,
                auditor,
                text: String::new(alloc),
            }),
            Err(_) => Err(PoolError::NoMemory),
        }
    }

    fn take(&mut self, entry: &Entry) -> Result<(), PoolError> {
        if self.is_flawed {
            return Ok(());
        }
        let tables = self.auditor.tables();
        if write_object(self.alloc, &mut self.text, tables, entry).is_err() {
            return Err(PoolError::NoMemory);
        }
        match self.auditor.push(entry) {
            Ok(()) => Ok(()),
            Err(Flaw::At(_)) => {
                self.is_flawed = true;
                Ok(())
            }
            Err(Flaw::NoMemory) => Err(PoolError::NoMemory),
        }
    }
}
