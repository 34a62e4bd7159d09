//! The worked sessions as runs over a feed, a page and a shelf in memory, and runs in which one of these fails, a file
//! or a word is refused, or options are set.
mod automata;
mod counts;
mod faults;
mod files_and_words;
mod long_runs;
mod option_runs;
mod pieces;
mod records;
mod runs;
mod waiting;
