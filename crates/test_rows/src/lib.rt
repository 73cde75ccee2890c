//! Files of rows, which the test programs play. A row begins behind `== ` at the begin of a line, and an empty line stands before it:
//! its title, and from the next line on its text.
#![tactic(auto)]

use anyhow::anyhow;
use std::fmt::Debug;

/// Plays the rows of a file's text, and prints how many there are. Where one is not as it says, the file and the row's title are
/// printed, and no more is played.
pub fn play_rows<F: Fn(&str, &str) -> anyhow::Result<()>>(
    rt: &impl Print,
    path: &str,
    text: &str,
    play: &F,
) -> anyhow::Result<()>
    requires { F.IsAlwaysCallable play.now }
{
    let mut rows = 0usize;
    for row in text.split("\n== ").skip(1) {
        let (title, text) = row.split_once('\n').unwrap_or((row, ""));
        let played = play(title, text);
        if played.is_err() {
            println!(rt; "{path}: {title}")?;
            return played;
        }
        rows = rows.saturating_add(1);
    }
    println!(rt; "{rows:3} {path}")?;
    Ok(())
}

/// What is seen at this line of a row is what is wanted there; else both are printed.
pub fn is_same<T: Debug + PartialEq>(
    rt: &impl Print,
    line: usize,
    seen: &T,
    wanted: &T,
) -> anyhow::Result<()> {
    if seen == wanted {
        return Ok(());
    }
    println!(rt; "line {line}: {seen:?} where {wanted:?} is wanted")?;
    Err(anyhow!("a row is not as it says"))
}
