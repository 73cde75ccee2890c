//! The first two lines of a record text.
ghost use Rattle.std.specs.Prelude.{Some};
ghost use Rattle.tp_text_record.specs.declared.versions.Version.{Version};
ghost use Rattle.tp_text_record.specs.ReadRecord.{head};
ghost use Rattle.tp_text_record.specs.RecordText.{written_options};

use std::fmt;
use tp_text::pools::ShownQueue;
use tp_types::configs::Config;
use tp_types::limits::DEFAULT_RECORD_LIMIT;

/// What a pool line says behind the policy, as ` coretimeout limit 64`.
#[derive(Clone, Copy)]
struct Options<'a>(&'a Config);

impl fmt::Display for Options<'_> {
    ghost output = { λ options. Some (written_options options.0.now) };

    fn fmt<W: fmt::Write>(&self, f: &mut fmt::Formatter<W>) -> fmt::Result {
        let config = self.0;
        let limit = config.record_limit;
        match (config.core_timeout, limit == DEFAULT_RECORD_LIMIT) {
            (false, true) => Ok(()),
            (true, true) => f.write_str(" coretimeout"),
            (false, false) => write!(f, " limit {limit}"),
            (true, false) => write!(f, " coretimeout limit {limit}"),
        }
    }
}

/// The first two lines of the text of a record of a pool of this configuration: the second form, and the
/// pool line, with a limit only where it is not 4,096.
#[derive(Clone, Copy)]
pub struct Head<'a>(pub &'a Config);

impl fmt::Display for Head<'_> {
    ghost output = { λ shown. Some (head Version.Two shown.0.now) };

    fn fmt<W: fmt::Write>(&self, f: &mut fmt::Formatter<W>) -> fmt::Result {
        let config = self.0;
        let Config {
            core,
            maximum,
            keep,
            ..
        } = *config;
        let queue = ShownQueue(config.queue);
        let policy = config.policy.name();
        let options = Options(config);
        write!(
            f,
            "tprecord 2\npool {core} {maximum} {queue} keep {keep} {policy}{options}\n"
        )
    }
}
