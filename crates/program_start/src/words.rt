//! The words of the command line, and the seed of a generator.
use hk_base::Text;
use std::alloc::Global;
use std::env;
use std::fs::File;
use std::io::{self, Read};
use std::rt::{Env, Files};

/// Returns the words of the command line without the program's own name. Fails if a word is not UTF-8,
/// or if allocation fails.
pub fn words_given(rt: &(impl Env + Alloc<A = Global>)) -> io::Result<Vec<Text>> {
    let mut words = Vec::new(rt.alloc());
    for word in env::args(rt)?.skip(1) {
        words.push(Text::of(word))?;
    }
    Ok(words)
}

/// Returns 32 bytes of the system's random source.
pub fn random_seed<R: Files>(files: &R) -> io::Result<[u8; 32]> {
    let mut seed = [0u8; 32];
    File::open(files, "/dev/urandom")?.read_exact(&mut seed)?;
    Ok(seed)
}
