// Field books at the bounds: 256 stations and 65,536 bytes.
use crate::expect::says;
use std::array;

// The lines of 256 stations take this many bytes.
const STATION_BYTES: usize = 1280;

// The two letters of station k, which is its number in letters A to P.
fn name(k: u8) -> [u8; 2] {
    [b'A' + k / 16, b'A' + k % 16]
}

// The line of station k.
fn station_line(k: u8) -> [u8; 5] {
    let [high, low] = name(k);
    [b'S', b' ', high, low, b'\n']
}

// The line of the tie of two stations.
fn tie_line(u: u8, v: u8) -> [u8; 8] {
    let [u_high, u_low] = name(u);
    let [v_high, v_low] = name(v);
    [b'T', b' ', u_high, u_low, b' ', v_high, v_low, b'\n']
}

// The lines of 256 stations, AA to PP.
pub(crate) fn stations() -> [u8; STATION_BYTES] {
    array::from_fn(|at| station_line((at / 5) as u8)[at % 5])
}

// The lines of 8,032 different ties of stations 0 to 40 with stations 41 to 240.
fn different_ties() -> [u8; 64256] {
    array::from_fn(|at| tie_line((at / 8 / 200) as u8, (41 + at / 8 % 200) as u8)[at % 8])
}

// Byte `at` of two stations and ties of them.
fn tied_byte(at: usize) -> u8 {
    if at < 9 {
        b"S A\nS BB\n"[at]
    } else {
        b"T A BB\n"[(at - 9) % 7]
    }
}

// Two stations and as many ties of them as make 65,536 bytes, and one byte more; byte 65,535 is replaced.
fn longest(last: u8) -> [u8; 65537] {
    array::from_fn(|at| if at == 65535 { last } else { tied_byte(at) })
}

// The lines of 256 stations, the lines after them, and bytes 0.
fn with_stations(lines: &[u8]) -> [u8; 65536] {
    let first = stations();
    array::from_fn(|at| {
        if at < STATION_BYTES {
            first[at]
        } else {
            lines.get(at - STATION_BYTES).copied().unwrap_or(0)
        }
    })
}

// What the report says of 256 stations and the lines after them.
fn after_256_stations(lines: &[u8], line: &[u8]) -> bool {
    with_stations(lines)
        .get(0..STATION_BYTES.saturating_add(lines.len()))
        .is_some_and(|book| says(book, line))
}

// 256 stations are accepted, and the first and the last of them can be tied.
#[test]
fn accepts_256_stations(rt: HostRuntime) {
    assert!(rt; after_256_stations(b"", b"stations 256 ties 0\n"));
    assert!(rt; after_256_stations(b"T AA PP\n", b"stations 256 ties 1\n"));
}

// One station more is refused, after a tie too.
#[test]
fn refuses_a_257th_station(rt: HostRuntime) {
    assert!(rt; after_256_stations(b"S QA\n", b"refused 29 line 257 byte 1282\n"));
    assert!(rt; after_256_stations(b"T AA PP\nS QA\n", b"refused 29 line 258 byte 1290\n"));
}

// A line without an end, a name given before and a bad byte are refused before one station more.
#[test]
fn finds_other_faults_of_a_257th_station(rt: HostRuntime) {
    assert!(rt; after_256_stations(b"S QA", b"refused 21 line 257 byte 1280\n"));
    assert!(rt; after_256_stations(b"S AA\n", b"refused 26 line 257 byte 1282\n"));
    assert!(rt; after_256_stations(b"S PP\n", b"refused 26 line 257 byte 1282\n"));
    assert!(rt; after_256_stations(b"S Q_\n", b"refused 25 line 257 byte 1283\n"));
}

// 256 stations and 8,032 different ties of them take 65,536 bytes.
#[test]
fn counts_as_many_ties_as_fit(rt: HostRuntime) {
    assert!(rt; after_256_stations(&different_ties(), b"stations 256 ties 8032\n"));
}

// 65,536 bytes are read, to the last of them.
#[test]
fn accepts_65536_bytes(rt: HostRuntime) {
    assert!(rt; says(&longest(b'\n')[0..65536], b"stations 2 ties 1\n"));
    assert!(rt;
        says(
            &longest(b'B')[0..65536],
            b"refused 21 line 9363 byte 65529\n"
        )
    );
}

// One byte more is refused before any line is read.
#[test]
fn refuses_65537_bytes(rt: HostRuntime) {
    assert!(rt; says(&[0; 65537], b"refused 20 line 0 byte 65537\n"));
    assert!(rt; says(&longest(b'\n'), b"refused 20 line 0 byte 65537\n"));
}
