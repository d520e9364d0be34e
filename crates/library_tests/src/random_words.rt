// Places in the key stream of ChaCha20 with a block counter and a nonce of 64 bits. The bytes are those of OpenSSL.
use random_streams::Stream;

// The bytes 0 to 31.
const SEED: [u8; 32] = [
    0, 1, 2, 3, 4, 5, 6, 7, 8, 9, 10, 11, 12, 13, 14, 15, 16, 17, 18, 19, 20, 21, 22, 23, 24, 25,
    26, 27, 28, 29, 30, 31,
];

#[test]
fn places(rt: HostRuntime) {
    let mut stream = Stream::new(&SEED, 3);
    // five bytes use two words
    let mut out = [0; 5];
    stream.fill(&mut out);
    assert!(rt; out == *b"\x69\x7a\x41\xf8\x98");
    assert!(rt; stream.place() == 2);
    // the fifth block, after the four that the generator keeps
    stream.fill(&mut [0; 248]);
    assert!(rt; stream.place() == 64);
    let mut out = [0; 16];
    stream.fill(&mut out);
    assert!(rt; u128::from_be_bytes(out) == 0x50785a81e414b4ba3495a774aab5cc8b);
    // back in the second block
    stream.go_back(16);
    stream.fill(&mut out);
    assert!(rt; u128::from_be_bytes(out) == 0x5773747a2f6c88b79e272654799d8ff4);
}
