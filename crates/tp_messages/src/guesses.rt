//! The word that was meant by one that does not fit.

use crate::places::sign_of;
use crate::wordings::Wording;
use std::alloc::{AllocError, Global};
use strsim::osa_distance;

/// Names of Java's and other words, and what stands for each here.
const JAVA: &[(&str, &str)] = &[
    ("shutdownNow", "stop"),
    ("setCorePoolSize", "core"),
    ("setMaximumPoolSize", "max"),
    ("setKeepAliveTime", "keep"),
    ("allowCoreThreadTimeOut", "coretimeout"),
    ("prestartCoreThread", "prestart"),
    ("poll", "takedone"),
    ("run", "execute"),
    ("awaitTermination", "await"),
    ("thread", "caller"),
    ("SynchronousQueue", "handoff"),
    ("LinkedBlockingQueue", "unbounded"),
    ("ArrayBlockingQueue", "bounded"),
    ("PriorityBlockingQueue", "priority"),
    ("AbortPolicy", "abort"),
    ("CallerRunsPolicy", "callerruns"),
    ("DiscardPolicy", "discard"),
    ("DiscardOldestPolicy", "discardoldest"),
];

/// What stands for this name of Java's.
fn called_in_java(name: &str) -> Option<&'static str> {
    for (java, here) in JAVA {
        if *java == name {
            return Some(*here);
        }
    }
    None
}

/// How far a word is from another, in letters; a word that was cut off is near, and a name of Java's nearer.
fn distance(alloc: Global, word: &str, other: &str) -> Result<usize, AllocError> {
    if called_in_java(word) == Some(other) {
        return Ok(0);
    }
    if word.len() >= 2 && other.starts_with(word) {
        return Ok(1);
    }
    let small = word.to_ascii_lowercase(alloc)?;
    osa_distance(alloc, small.as_str(), other)
}

/// The nearest word so far, and how far it is.
#[derive(Clone, Copy)]
struct Guess {
    near: Option<&'static str>,
    far: usize,
}

/// The nearest of further words, if one is nearer.
fn nearer(
    alloc: Global,
    guess: Guess,
    word: &str,
    others: &[&'static str],
) -> Result<Guess, AllocError> {
    let mut guess = guess;
    for other in others {
        let far = distance(alloc, word, other)?;
        if far < guess.far {
            guess = Guess {
                near: Some(*other),
                far,
            };
        }
    }
    Ok(guess)
}

/// The word that was meant by the first one that does not fit: the nearest of those that may stand there, if one is near.
pub fn word_meant(
    alloc: Global,
    wording: &Wording<'_>,
) -> Result<Option<&'static str>, AllocError> {
    let word = wording.found;
    let mut guess = Guess {
        near: None,
        far: word.len().max(3) / 3 + 1,
    };
    for number in 0..wording.forms.len() {
        if let Some(wanted) = wording.wanted(number) {
            guess = match sign_of(wanted) {
                Some(sign) => nearer(alloc, guess, word, sign.names())?,
                None => nearer(alloc, guess, word, &[wanted])?,
            };
        }
    }
    Ok(guess.near)
}
