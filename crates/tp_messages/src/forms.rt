//! The forms of lines, in the words of docs/SCENARIOS.md: what is written small stands in the line as it is, and the rest is
//! told by the module `places`.

/// Forms that a line may have. Those that begin alike stand side by side, and one that is another's beginning stands before it.
pub type Forms = &'static [&'static str];

/// The forms of a pool line.
pub const POOL_FORMS: Forms = &[
    "pool CORE MAX handoff keep TICKS POLICY",
    "pool CORE MAX handoff keep TICKS POLICY coretimeout",
    "pool CORE MAX handoff keep TICKS POLICY coretimeout limit ENTRIES",
    "pool CORE MAX handoff keep TICKS POLICY limit ENTRIES",
    "pool CORE MAX unbounded keep TICKS POLICY",
    "pool CORE MAX unbounded keep TICKS POLICY coretimeout",
    "pool CORE MAX unbounded keep TICKS POLICY coretimeout limit ENTRIES",
    "pool CORE MAX unbounded keep TICKS POLICY limit ENTRIES",
    "pool CORE MAX bounded PLACES keep TICKS POLICY",
    "pool CORE MAX bounded PLACES keep TICKS POLICY coretimeout",
    "pool CORE MAX bounded PLACES keep TICKS POLICY coretimeout limit ENTRIES",
    "pool CORE MAX bounded PLACES keep TICKS POLICY limit ENTRIES",
    "pool CORE MAX priority keep TICKS POLICY",
    "pool CORE MAX priority keep TICKS POLICY coretimeout",
    "pool CORE MAX priority keep TICKS POLICY coretimeout limit ENTRIES",
    "pool CORE MAX priority keep TICKS POLICY limit ENTRIES",
];

/// The forms of a pool line in short, and an example.
pub const POOL_SUMMARY: Forms = &[
    "form: pool CORE MAX QUEUE keep TICKS POLICY, then maybe coretimeout, then maybe limit ENTRIES",
    "QUEUE is handoff, unbounded, bounded PLACES or priority",
    "as: pool 1 4 bounded 16 keep 0 abort",
];

/// The forms of a scenario's steps.
pub const STEP_FORMS: Forms = &[
    "submit plain V",
    "submit plain V prio N",
    "submit plain !N",
    "submit plain !N prio N",
    "submit future V",
    "submit future V prio N",
    "submit future !N",
    "submit future !N prio N",
    "submit group G V",
    "submit group G V prio N",
    "submit group G !N",
    "submit group G !N prio N",
    "look T",
    "offer T",
    "second T",
    "grow T",
    "verdict T VERDICT",
    "callerend T",
    "open W",
    "fail W",
    "take W",
    "begin W",
    "end W",
    "leave W",
    "shutdown",
    "stop",
    "tidy",
    "ended",
    "remove T",
    "purge",
    "cancel T",
    "cancel T flag",
    "takedone G",
    "core SIZE",
    "max SIZE",
    "keep TICKS",
    "coretimeout on",
    "coretimeout off",
    "tick TICKS",
    "prestart",
];

/// The forms of the lines of a file of jobs.
pub const JOB_FORMS: Forms = &[
    "execute V",
    "execute V prio N",
    "execute !N",
    "execute !N prio N",
    "submit V",
    "submit V prio N",
    "submit !N",
    "submit !N prio N",
];

/// What a line of a file of callers begins with, behind the pool line.
pub const CALLER_FORMS: Forms = &[
    "caller CALL",
    "factory consents",
    "factory refuses",
    "factory may refuse",
];

/// The forms of a submission in a caller's line, behind its name.
pub const NAMED_FORMS: Forms = &[
    "execute V",
    "execute V prio N",
    "execute !N",
    "execute !N prio N",
    "submit V",
    "submit V prio N",
    "submit !N",
    "submit !N prio N",
    "group G V",
    "group G V prio N",
    "group G !N",
    "group G !N prio N",
];

/// The forms of a caller's calls.
pub const CALL_FORMS: Forms = &[
    "execute V",
    "execute V prio N",
    "execute !N",
    "execute !N prio N",
    "submit V",
    "submit V prio N",
    "submit !N",
    "submit !N prio N",
    "group G V",
    "group G V prio N",
    "group G !N",
    "group G !N prio N",
    "shutdown",
    "stop",
    "purge",
    "max SIZE",
    "keep TICKS",
    "coretimeout on",
    "coretimeout off",
    "tick TICKS",
    "takedone G",
    "core SIZE",
    "prestart",
    "cancel NAME",
    "cancel NAME flag",
    "remove NAME",
    "await end",
    "await NAME",
];

/// What a record's line begins with, behind the pool line: an entry's number, or `end`.
pub const BODY_FORMS: Forms = &["ENTRY STEP", "end N"];

/// The form of a record's last line.
pub const END_FORMS: Forms = &["end N"];

/// What an entry says behind its number, where that begins with a pass.
pub const PASS_FORMS: Forms = &["pN STEP"];

/// The forms of a record's entries, behind the entry's number and its pass.
pub const ENTRY_FORMS: Forms = &[
    "submit tN plain reserve wN",
    "submit tN plain queue",
    "submit tN plain refuse",
    "submit tN plain prio N reserve wN",
    "submit tN plain prio N queue",
    "submit tN plain prio N refuse",
    "submit tN future reserve wN",
    "submit tN future queue",
    "submit tN future refuse",
    "submit tN future prio N reserve wN",
    "submit tN future prio N queue",
    "submit tN future prio N refuse",
    "submit tN group G reserve wN",
    "submit tN group G queue",
    "submit tN group G refuse",
    "submit tN group G prio N reserve wN",
    "submit tN group G prio N queue",
    "submit tN group G prio N refuse",
    "look tN reserve wN",
    "look tN queue",
    "look tN refuse",
    "offer tN queued",
    "offer tN hand wN",
    "offer tN full",
    "second tN stay",
    "second tN stay reserve wN",
    "second tN back",
    "grow tN reserve wN",
    "grow tN refuse",
    "verdict tN VERDICT rejected",
    "verdict tN VERDICT caller",
    "verdict tN VERDICT skip",
    "verdict tN VERDICT discarded",
    "verdict tN VERDICT retry",
    "verdict tN VERDICT retry drop tN",
    "callerend tN value V",
    "callerend tN fault N",
    "open wN live",
    "open wN givenup",
    "open wN givenup tN refuse",
    "fail wN none",
    "fail wN tN offer",
    "fail wN tN refuse",
    "take wN held tN",
    "take wN head tN",
    "take wN leave",
    "take wN idle",
    "begin wN tN",
    "begin wN skip tN",
    "end wN tN value V",
    "end wN tN fault N",
    "leave wN",
    "leave wN reserve wN",
    "shutdown",
    "stop drained N",
    "tidy",
    "ended",
    "remove tN yes",
    "remove tN no",
    "purge N",
    "cancel tN yes",
    "cancel tN no",
    "cancel tN flag yes",
    "cancel tN flag no",
    "takedone G tN",
    "core SIZE add N",
    "max SIZE",
    "keep TICKS",
    "coretimeout on",
    "coretimeout off",
    "tick TICKS",
    "prestart reserve wN",
    "prestart none",
];
