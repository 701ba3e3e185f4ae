//! Random words.
use disk_kinds::ChaWords;
use hk_base::Words;
use std::process::Abort;

fn check_word(rt: &impl Abort, words: &mut ChaWords, bytes: [u8; 4]) {
    assert_eq!(rt; words.word().to_le_bytes(), bytes);
}

/// The published key stream of ChaCha20 under a key of 32 zero bytes.
const KEY_STREAM: [[u8; 4]; 4] = [
    [0x76, 0xb8, 0xe0, 0xad],
    [0xa0, 0xf1, 0x3d, 0x90],
    [0x40, 0x5d, 0x6a, 0xe5],
    [0x53, 0x86, 0xbd, 0x28],
];

#[test]
fn words_are_the_published_key_stream(rt: HostRuntime) {
    let mut words = ChaWords::from_seed([0; 32]);
    for bytes in KEY_STREAM {
        check_word(&rt, &mut words, bytes);
    }
}
