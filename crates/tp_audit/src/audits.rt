//! A whole record judged by the auditor.

ghost use Rattle.std.specs.Prelude.{reverse, IfOk, IfErr};
ghost use Rattle.tp_types.specs.Config.{IsConfig};
ghost use Rattle.tp_record.specs.Step as steps;
ghost use Rattle.tp_laws.specs.Lawful.{IsLawful};
ghost use Rattle.tp_audit_plain.specs.Audit.{IsSummary, IsFlawOf};

use crate::auditor::Auditor;
use std::alloc::Global;
use tp_audit_plain::summary::{Flaw, Summary};
use tp_record::entries::Entry;
use tp_types::configs::Config;

/// Judges the record of a pool that was made with `config`, entry by entry: its counters, its run state and its tasks'
/// fates, exactly where each entry is one that the step gives after those before it; else the number of the first that it
/// does not give. All laws hold of a record that has counters. It answers as `audit_plain` does, at a cost that goes by the
/// number of entries. Want of memory is answered as such.
pub fn audit(alloc: Global, config: &Config, entries: &[Entry]) -> Result<Summary, Flaw>
    requires { IsConfig config.now }
    ensures legal { IfOk result (λ s. steps.Legal config.now (reverse entries.now)) }
    ensures lawful { IfOk result (λ s. IsLawful config.now (reverse entries.now)) }
    ensures summary { IfOk result (λ s. IsSummary config.now (reverse entries.now) s) }
    ensures flaw { IfErr result (λ f. IsFlawOf config.now entries.now f) }
{
    let mut auditor = match Auditor::new(alloc, config) {
        Ok(auditor) => auditor,
        Err(flaw) => return Err(flaw),
    };
    for entry in entries {
        match auditor.push(entry) {
            Ok(()) => {}
            Err(flaw) => return Err(flaw),
        }
    }
    auditor.finish()
}
