//! Records judged by both auditors.
ghost use Rattle.std.specs.Prelude.{IsTrue};
ghost use Rattle.tp_types.specs.Config.{IsConfig};

use std::alloc::Global;
use tp_audit::audits::audit;
use tp_audit_plain::plain::audit_plain;
use tp_audit_plain::summary::{Flaw, Summary};
use tp_record::entries::Entry;
use tp_types::configs::Config;

/// Whether a pool can have these settings.
fn is_config(config: &Config) -> bool
    ensures { IsTrue result → IsConfig config.now }
{
    config.check().is_ok()
}

/// The judgment of both auditors; none where they differ.
fn judgment_of_both(
    alloc: Global,
    config: &Config,
    entries: &[Entry],
) -> Option<Result<Summary, Flaw>>
    requires { IsConfig config.now }
{
    let judgment = audit(alloc, config, entries);
    if judgment == audit_plain(alloc, config, entries) {
        Some(judgment)
    } else {
        None
    }
}

/// The judgment of both auditors; none where they differ, or where a pool can't have these settings.
pub fn judged(alloc: Global, config: &Config, entries: &[Entry]) -> Option<Result<Summary, Flaw>> {
    if is_config(config) {
        judgment_of_both(alloc, config, entries)
    } else {
        None
    }
}
