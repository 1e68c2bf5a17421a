// Paths read and printed.
use super::*;
use line::Line;

// Whether the text is read as a path that prints as the same text.
fn comes_back(text: &[u8]) -> bool {
    let Some(path) = Path::parse(text) else {
        return false;
    };
    let mut places = [0u8; PRINTED_MAX];
    let mut line = Line::new(&mut places);
    path.print(&mut line).is_ok() && line.as_bytes() == text
}

#[test]
fn paths_come_back(rt: HostRuntime) {
    assert!(rt; comes_back(b"root"));
    assert!(rt; comes_back(b"root.pts[1]"));
    assert!(rt; comes_back(b"root[0][65534].a_Name_of_16_byt[10]"));
}

#[test]
fn other_texts_are_no_paths(rt: HostRuntime) {
    assert!(rt; Path::parse(b"").is_none());
    assert!(rt; Path::parse(b"roo").is_none());
    assert!(rt; Path::parse(b"root.").is_none());
    assert!(rt; Path::parse(b"root[07]").is_none());
    assert!(rt; Path::parse(b"root[65535]").is_none());
    assert!(rt; Path::parse(b"root[1").is_none());
    assert!(rt; Path::parse(b"root.a.b.c.d.e.f.g.h.i").is_none());
}
