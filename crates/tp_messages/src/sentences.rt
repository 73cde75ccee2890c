//! What is said of a mistake: its sentence, and how it is mended.

use crate::faults::Fault;
use crate::mistakes::{Kind, Mistake};
use crate::settings::Setting;
use crate::tellings::{Saying, Telling, Value, plain};
use tp_types::refusals::PoolError;

const TAB: Saying = Saying {
    sentence: "a tab stands in the line",
    advice: " write one space between two words",
};

const EMPTY: Saying = Saying {
    sentence: "the text is empty",
    advice: " it begins with a pool line",
};

const EMPTY_RECORD: Saying = Saying {
    sentence: "the text is empty",
    advice: " a record begins with the line 'tprecord 2'",
};

const NO_POOL_LINE: Saying = Saying {
    sentence: "the text has no pool line",
    advice: " the text ends here",
};

const EARLY_LINE: Saying = Saying {
    sentence: "'{}' stands before the pool line",
    advice: " the pool line comes first",
};

const SECOND_POOL_LINE: Saying = Saying {
    sentence: "a second pool line",
    advice: " a text is of one pool",
};

const A_SCENARIO: Saying = Saying {
    sentence: "this is a line of a scenario",
    advice: " it is for `poolrun steps`",
};

const A_FILE_OF_JOBS: Saying = Saying {
    sentence: "this is a line of a file of jobs",
    advice: " it is for `poolrun threads`",
};

const A_RECORD: Saying = Saying {
    sentence: "this is a line of a record",
    advice: " it is for `poolrun audit`",
};

const A_FILE_OF_CALLERS: Saying = Saying {
    sentence: "this is a line of a file of callers",
    advice: " it is for `poolrun explore`",
};

const PRINTED: Saying = Saying {
    sentence: "this is what `poolrun steps` prints",
    advice: " `poolrun steps --record` prints a record, which `poolrun audit` reads",
};

const POOL_FIRST: Saying = Saying {
    sentence: "no record begins so: a scenario, a file of jobs or a file of callers does",
    advice: " `poolrun steps` reads a scenario, `poolrun threads` jobs, `poolrun explore` callers",
};

const OTHER_VERSION: Saying = Saying {
    sentence: "a record that begins with '{}' is not read",
    advice: " the forms 'tprecord 1' and 'tprecord 2' are",
};

const CALL_WITHOUT_CALLER: Saying = Saying {
    sentence: "a call stands without its caller",
    advice: " write 'caller' and a space before it; a file of jobs is for `poolrun threads`",
};

const SECOND_FACTORY: Saying = Saying {
    sentence: "a second line on the factory",
    advice: " take one of them out",
};

const SEMICOLON: Saying = Saying {
    sentence: "a semicolon wants a space and a call behind it",
    advice: " write '; ' between two calls",
};

const BAD_NAME: Saying = Saying {
    sentence: "'{}' may not name a task",
    advice: " a name is letters, digits, _ and -, begins with a letter, and is not 'end'",
};

const NAME_TWICE: Saying = Saying {
    sentence: "a second task has the name '{}'",
    advice: " give one of them another name",
};

const NO_SUCH_NAME: Saying = Saying {
    sentence: "no task has the name '{}'",
    advice: " a task gets one where it is submitted, as in 'a: execute 5'",
};

const MANY_CALLERS: Saying = Saying {
    sentence: "there are more than 4096 callers",
    advice: " the states of so many could not be counted",
};

const NO_VERSION: Saying = Saying {
    sentence: "a record begins with the line 'tprecord 2'",
    advice: " write 'tprecord 2' here",
};

const HEADLESS: Saying = Saying {
    sentence: "an entry stands where the record begins",
    advice: " write 'tprecord 2' and the pool line before it, as `poolrun steps --record` does",
};

const USUAL_LIMIT: Saying = Saying {
    sentence: "a record's limit of 4096 is not written",
    advice: " leave out 'limit 4096'",
};

const SKIPPED: Saying = Saying {
    sentence: "a record has no empty lines and no comments",
    advice: " take it out",
};

const UNNUMBERED: Saying = Saying {
    sentence: "the entry's number is missing",
    advice: " write {} before it",
};

const MISNUMBERED: Saying = Saying {
    sentence: "the entry has another entry's number",
    advice: " this is entry {}",
};

const PASS_NOUGHT: Saying = Saying {
    sentence: "pass 0 is not written",
    advice: " take it out",
};

const PRIORITY_NOUGHT: Saying = Saying {
    sentence: "priority 0 is not written",
    advice: " take it out",
};

const FIRST_FORM: Saying = Saying {
    sentence: "a record that begins with 'tprecord 1' has no priorities",
    advice: " write 'tprecord 2' in the first line",
};

const MISCOUNTED: Saying = Saying {
    sentence: "the number of entries is wrong",
    advice: " write {}: so many stand before it",
};

const NO_END: Saying = Saying {
    sentence: "the record's last line is missing",
    advice: " write 'end {}' here; or the text was cut off",
};

const BEHIND_END: Saying = Saying {
    sentence: "something stands behind the record's last line",
    advice: " take it out",
};

const JOB: Saying = Saying {
    sentence: "job {}",
    advice: " the record is torn there",
};

const UNKNOWN: Saying = Saying {
    sentence: "the line may not stand here",
    advice: "",
};

impl<'a> Mistake<'a> {
    /// What is said of a mistake that is not one of words.
    fn saying(&self) -> &'static Saying {
        match self {
            Mistake::Bytes(fault) => fault.saying(),
            Mistake::Setting(setting) => setting.saying(),
            Mistake::OtherKind(Kind::Scenario) => &A_SCENARIO,
            Mistake::OtherKind(Kind::Jobs) => &A_FILE_OF_JOBS,
            Mistake::OtherKind(Kind::Record) => &A_RECORD,
            Mistake::OtherKind(Kind::Callers) => &A_FILE_OF_CALLERS,
            Mistake::CallWithoutCaller => &CALL_WITHOUT_CALLER,
            Mistake::SecondFactory => &SECOND_FACTORY,
            Mistake::Semicolon => &SEMICOLON,
            Mistake::BadName(_) => &BAD_NAME,
            Mistake::NameTwice(_) => &NAME_TWICE,
            Mistake::NoSuchName(_) => &NO_SUCH_NAME,
            Mistake::ManyCallers => &MANY_CALLERS,
            Mistake::Printed => &PRINTED,
            Mistake::PoolFirst => &POOL_FIRST,
            Mistake::OtherVersion(_) => &OTHER_VERSION,
            Mistake::Tab => &TAB,
            Mistake::Empty(Kind::Record) => &EMPTY_RECORD,
            Mistake::Empty(_) => &EMPTY,
            Mistake::NoPoolLine => &NO_POOL_LINE,
            Mistake::EarlyLine(_) => &EARLY_LINE,
            Mistake::SecondPoolLine => &SECOND_POOL_LINE,
            Mistake::NoVersion => &NO_VERSION,
            Mistake::Headless => &HEADLESS,
            Mistake::UsualLimit => &USUAL_LIMIT,
            Mistake::Skipped => &SKIPPED,
            Mistake::Unnumbered(_) => &UNNUMBERED,
            Mistake::Misnumbered(_) => &MISNUMBERED,
            Mistake::PassNought => &PASS_NOUGHT,
            Mistake::PriorityNought => &PRIORITY_NOUGHT,
            Mistake::FirstForm => &FIRST_FORM,
            Mistake::Miscounted(_) => &MISCOUNTED,
            Mistake::NoEnd(_) => &NO_END,
            Mistake::BehindEnd => &BEHIND_END,
            Mistake::Job(_, _, _) => &JOB,
            Mistake::Words(_) | Mistake::Unknown => &UNKNOWN,
        }
    }

    /// What is told of a mistake that is not one of words.
    fn value(&self) -> Value<'a> {
        match self {
            Mistake::EarlyLine(word)
            | Mistake::OtherVersion(word)
            | Mistake::BadName(word)
            | Mistake::NameTwice(word)
            | Mistake::NoSuchName(word) => Value::Word("", *word),
            Mistake::Bytes(Fault::NotAscii(byte)) => Value::Number(u32::from(*byte)),
            Mistake::Setting(Setting::Core(core, maximum)) => Value::Sizes(*core, *maximum),
            Mistake::Setting(Setting::Maximum(number))
            | Mistake::Setting(Setting::Capacity(number))
            | Mistake::Setting(Setting::Limit(number))
            | Mistake::Unnumbered(number)
            | Mistake::Misnumbered(number)
            | Mistake::Miscounted(number)
            | Mistake::NoEnd(number) => Value::Number(*number),
            Mistake::Job(job, refusal, _) => Value::Job(*job, *refusal),
            _ => Value::Nothing,
        }
    }

    /// What is wrong.
    pub fn sentence(&self) -> Telling<'a> {
        match self {
            Mistake::Words(wording) => wording.sentence(),
            _ => Telling {
                text: self.saying().sentence,
                value: self.value(),
            },
        }
    }

    /// How it is mended, behind a space; there may be nothing.
    pub fn advice(&self) -> Telling<'a> {
        match self {
            Mistake::Words(wording) => wording.advice(),
            Mistake::Job(_, PoolError::BookFull, room) => Telling {
                text: " the record has room for {}",
                value: Value::Room(*room),
            },
            Mistake::Job(_, PoolError::NoMemory, _) => plain(" there is no memory for it"),
            _ => Telling {
                text: self.saying().advice,
                value: self.value(),
            },
        }
    }
}
