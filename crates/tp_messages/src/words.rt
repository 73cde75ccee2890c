//! The words of a line.

/// How many words a text has: what stands between its spaces.
pub fn count(text: &str) -> usize {
    text.split(' ').count()
}

/// The word of this number, counted from 0.
pub fn word_at(text: &str, place: usize) -> Option<&str> {
    text.split(' ').nth(place)
}

/// Where a word begins in its text, counted from 0; behind the text's end for the word after the last.
pub fn start_of(text: &str, place: usize) -> usize {
    let mut start = 0usize;
    for word in text.split(' ').take(place) {
        start = start.saturating_add(word.len()).saturating_add(1);
    }
    start
}
