// Calls over the sheet of one byte.
use super::*;
use cells::bytes::Bytes;
use path::Piece;
use sheet::CheckedSheet;

// The answers of seven calls on a message, which they change.
fn answers_of(message: &mut [u8], calls: &[Call<'_>; 7]) -> [Answer; 7] {
    let mut store = Bytes::new(message);
    let mut pieces = [Piece::blank(); 2];
    let mut laid = Laid::nothing();
    let mut answers = [Answer::Lifted; 7];
    let sheet = CheckedSheet::built_in();
    run(
        &sheet,
        &mut store,
        &mut pieces,
        &mut laid,
        calls,
        &mut answers,
    );
    answers
}

#[test]
fn lays_finds_puts_and_lifts(rt: HostRuntime) {
    let mut message = [7u8, 8];
    let calls = [
        Call::Find(b"root"),
        Call::Lay,
        Call::Find(b"root"),
        Call::Find(b"root.a"),
        Call::Put(b"root", b"\x09"),
        Call::Put(b"root", b""),
        Call::Lift,
    ];
    let answers = answers_of(&mut message, &calls);
    assert!(rt; matches!(answers[0], Answer::NotFound(FindRefusal::NothingLaid)));
    assert!(rt;
        matches!(
            answers[1],
            Answer::Laid(Cover {
                pieces: 1,
                width: 1
            })
        )
    );
    assert!(rt;
        matches!(
            answers[2],
            Answer::Found(Found {
                row: 0,
                place: 0,
                width: 1
            })
        )
    );
    assert!(rt; matches!(answers[3], Answer::NotFound(FindRefusal::NoPiece)));
    assert!(rt; matches!(answers[4], Answer::Put));
    assert!(rt; matches!(answers[5], Answer::NotPut(PutRefusal::WrongWidth)));
    assert!(rt; matches!(answers[6], Answer::Lifted));
    assert_eq!(rt; message, [9, 8]);
}

#[test]
fn shows_a_part(rt: HostRuntime) {
    let sheet = CheckedSheet::built_in();
    let mut message = [7u8, 8];
    let mut pieces = [Piece::blank(); 1];
    let mut laid = Laid::nothing();
    assert!(rt; lay(&sheet, &Bytes::new(&mut message), &mut pieces, &mut laid).is_ok());
    assert!(rt; matches!(show(&laid, &mut pieces, &message, b"root"), Ok([7])));
    assert!(rt;
        matches!(
            show(&laid, &mut pieces, b"", b"root"),
            Err(ShowRefusal::PastEnd(0))
        )
    );
    lift(&mut laid);
    assert!(rt;
        matches!(
            show(&laid, &mut pieces, &message, b"root"),
            Err(ShowRefusal::NothingLaid)
        )
    );
}
