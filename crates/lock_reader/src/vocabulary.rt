// The vocabulary: entries one after the other, each a word, a path and a sort.
ghost use Rattle.std.specs.Prelude.{◌≡◌};
ghost use Rattle.locks.specs.Reading.{no_entry, entry_places_at, find_from, most, is_short_word, is_entry, is_vocabulary, EntryLies, EntryIs};

use bags::paths::is_path;
use locks::vocabulary::{EntryPlaces, NUMBER};
use slices::same;
use tokens::classes::{Sort, is_of};
use tokens::runs::run_end;

// The most words of a vocabulary.
const WORDS: usize = 16;

fn no_entry() -> EntryPlaces
    ensures { result ≡ no_entry }
{
    EntryPlaces {
        sort: 0,
        word: 0,
        stop: 0,
        path: 0,
        end: 0,
        next: 0,
    }
}

// The entry at a place: a length byte, the word, a length byte, the path, a byte for the sort.
fn entry_at(vocabulary: &[u8], at: usize) -> EntryPlaces
    ensures { EntryIs vocabulary.now result (entry_places_at vocabulary.now at) }
{
    if vocabulary.len() <= at {
        return no_entry();
    }
    let word = at + 1;
    let n = vocabulary[at] as usize;
    if vocabulary.len() - word <= n {
        return no_entry();
    }
    let stop = word + n;
    let path = stop + 1;
    let m = vocabulary[stop] as usize;
    if vocabulary.len() - path <= m {
        return no_entry();
    }
    let end = path + m;
    EntryPlaces {
        sort: vocabulary[end],
        word,
        stop,
        path,
        end,
        next: end + 1,
    }
}

// The first entry from a place on that has the word; sort 0 where none has.
pub fn find(vocabulary: &[u8], from: usize, word: &[u8]) -> EntryPlaces
    ensures { EntryIs vocabulary.now result (find_from most vocabulary.now from word.now) }
{
    let mut at = from;
    for _ in 0..WORDS {
        let e = entry_at(vocabulary, at);
        if e.sort == 0 {
            return no_entry();
        }
        if same(&vocabulary[e.word..e.stop], word) {
            return e;
        }
        at = e.next;
    }
    no_entry()
}

// Whether bytes are a word of document 01.
fn is_word(word: &[u8]) -> bool
    ensures { result ≡ is_short_word word.now }
{
    if word.len() == 0 {
        return false;
    }
    if 64 < word.len() {
        return false;
    }
    // Tried with `&&`: where the run was not asked for, `returns-else-is_of` has no end of it to compare.
    is_of(Sort::Letters, word[0]) & (run_end(word, 0, Sort::WordBytes) == word.len())
}

// Whether an entry is one of a vocabulary, and no later one has its word.
fn is_entry(vocabulary: &[u8], e: EntryPlaces) -> bool
    requires entry_lies { EntryLies vocabulary.now e }
    ensures { result ≡ is_entry vocabulary.now e }
{
    if (e.sort == 0) | (NUMBER < e.sort) {
        return false;
    }
    let word = &vocabulary[e.word..e.stop];
    let later = find(vocabulary, e.next, word);
    is_word(word) & is_path(&vocabulary[e.path..e.end]) & (later.sort == 0)
}

// Whether bytes are a vocabulary.
pub fn is_vocabulary(vocabulary: &[u8]) -> bool
    ensures { result ≡ is_vocabulary vocabulary.now }
{
    let mut at = 0;
    for _ in 0..WORDS {
        if vocabulary.len() <= at {
            return true;
        }
        let e = entry_at(vocabulary, at);
        if !is_entry(vocabulary, e) {
            return false;
        }
        at = e.next;
    }
    vocabulary.len() <= at
}
