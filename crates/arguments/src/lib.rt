// The words that a program was started with, as bytes: a word need not be text.
#![tactic(auto)]

ghost use Rattle.blocks.specs.Counts.{IsPrefixLen};

use std::env::FillError;
use std::rt::Env;

// How many there are, the program's own name among them.
pub fn count(rt: &impl Env) -> usize {
    for i in 0..usize::MAX {
        if matches!(rt.arg(i, &mut []), Err(FillError::NotPresent)) {
            return i;
        }
    }
    usize::MAX
}

// The bytes of word i, at the room's start. How many they are: none where there is no such word, or the room does not hold it. No `Option`: an empty word names as little.
pub fn put(rt: &impl Env, i: usize, room: &mut [u8]) -> usize
    ensures { IsPrefixLen result room.new }
{
    match rt.arg(i, room) {
        Ok(length) => length,
        Err(_) => 0,
    }
}
