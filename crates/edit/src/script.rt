// Scripts: one call in each line.
use anyhow::bail;
use cells::capture::Capture;
use cells::source::Source;
use reading::Call;

// A line of a script: a call, with the bytes of a put still in hexadecimal digits.
#[derive(Clone, Copy)]
enum Spoken<'s> {
    Lay,
    Find(&'s [u8]),
    Put(&'s [u8], &'s [u8]),
    Lift,
}

impl<'s> Spoken<'s> {
    // The call that a line is, if it is one.
    fn read(text: &'s [u8]) -> Option<Spoken<'s>> {
        if text == b"lay".as_slice() {
            return Some(Spoken::Lay);
        }
        if text == b"lift".as_slice() {
            return Some(Spoken::Lift);
        }
        if let Some(path) = text.strip_prefix(b"find ") {
            return Some(Spoken::Find(path));
        }
        let words = text.strip_prefix(b"put ")?;
        let space = words.iter().position(|b| *b == b' ')?;
        Some(Spoken::Put(&words[..space], &words[space + 1..]))
    }
}

// Appends the bytes of a capture, unless one is lost.
pub(crate) fn push_bytes(bytes: &mut Vec<u8>, capture: &Capture<'_>) -> anyhow::Result<()> {
    for k in 0..capture.len() {
        let Ok(byte) = capture.read(k) else {
            bail!("cell {k} is lost");
        };
        bytes.push(byte)?;
    }
    Ok(())
}

// The bytes of all puts of a script, one after another.
pub(crate) fn put_bytes(rt: &HostRuntime, script: &[u8]) -> anyhow::Result<Vec<u8>> {
    let mut bytes = Vec::new(rt.alloc());
    for text in script.split(|b| *b == b'\n') {
        if let Some(Spoken::Put(_, digits)) = Spoken::read(text) {
            let Ok(capture) = Capture::open(digits) else {
                bail!("the bytes of a put are no hexadecimal digits");
            };
            push_bytes(&mut bytes, &capture)?;
        }
    }
    Ok(bytes)
}

// The calls of a script, over the bytes of its puts. Empty lines are passed over.
pub(crate) fn calls_of<'c>(
    rt: &HostRuntime,
    script: &'c [u8],
    bytes: &'c [u8],
) -> anyhow::Result<Vec<Call<'c>>> {
    let mut calls = Vec::new(rt.alloc());
    let mut rest = bytes;
    for (i, text) in script.split(|b| *b == b'\n').enumerate() {
        if text.is_empty() {
            continue;
        }
        let Some(spoken) = Spoken::read(text) else {
            bail!("line {} of the script is no call", i + 1);
        };
        let call = match spoken {
            Spoken::Lay => Call::Lay,
            Spoken::Find(path) => Call::Find(path),
            Spoken::Put(path, digits) => {
                let (own, behind) = rest.split_at((digits.len() / 2).min(rest.len()));
                rest = behind;
                Call::Put(path, own)
            }
            Spoken::Lift => Call::Lift,
        };
        calls.push(call)?;
    }
    Ok(calls)
}
