//! Texts and their tokens.

use crate::rows::repeated;
use fmt_lexer::{Base, Token, TokenKind, number_parts, tokens, word_len};
use std::alloc::{AllocError, Global};
use std::test::Fail;

fn letter(kind: TokenKind) -> u8 {
    match kind {
        TokenKind::Name => b'n',
        TokenKind::Number => b'd',
        TokenKind::Letter => b'c',
        TokenKind::Text => b't',
        TokenKind::Mark => b'm',
    }
}

/// Writes a token's letter under its bytes.
fn mark(outline: &mut [u8], token: &Token) {
    let letter = letter(token.kind);
    for at in token.start..token.end {
        if let Some(cell) = outline.get_mut(at as usize) {
            *cell = letter;
        }
    }
    if let Some(cell) = outline.get_mut(token.start as usize) {
        *cell = letter.to_ascii_uppercase();
    }
}

/// The second part of a row below, from its first.
fn outline(alloc: Global, text: &[u8]) -> Result<Vec<u8>, AllocError> {
    let Some(row) = tokens(alloc, text)? else {
        return b"!".to_vec(alloc);
    };
    let mut outline = text.to_vec(alloc)?;
    outline.fill(b' ');
    for token in &row {
        mark(&mut outline, token);
    }
    Ok(outline)
}

/// How many tokens a text has, and where the last one ends.
fn numbers_of(alloc: Global, text: &[u8]) -> Result<Vec<u8>, AllocError> {
    let (count, end) = match tokens(alloc, text)? {
        Some(row) => (row.len(), row.last().map_or(0, |token| token.end)),
        None => (0, 0),
    };
    format!(in alloc; "{count} {end}")?.as_bytes().to_vec(alloc)
}

pub(crate) fn told(alloc: Global, kind: &str, text: &str) -> Result<Vec<u8>, Fail> {
    match kind {
        "outline" => Ok(outline(alloc, text.as_bytes())?),
        "bytes" => Ok(outline(alloc, &hex::decode(alloc, text)?)?),
        _ => Ok(numbers_of(alloc, &repeated(alloc, text)?)?),
    }
}

#[test]
fn tokens_and_numbers_come_apart(rt: HostRuntime) -> Result<(), Fail> {
    let text = b"REC->flags & 0x1fUL";
    let row = tokens(rt.alloc(), text)?.ok_or("no tokens")?;
    let token = row.last().ok_or("no token")?;
    assert!(rt;
        token.start <= token.end && token.end <= 19 && token.bytes(text) == b"0x1fUL".as_slice()
    );
    let parts = number_parts(b"0x1fUL").ok_or("no number")?;
    assert!(rt; parts.base == Base::Hexadecimal && parts.value == 31);
    assert!(rt; parts.digits == b"1f".as_slice() && parts.suffix == b"UL".as_slice());
    assert!(rt; word_len(b"a1_B2 _9") == 5);
    Ok(())
}

// A text, and under each of its bytes the token that has it: a capital at its first byte, and small letters after it.
// N is a name, D a number, C a letter, T a text, M a mark, and a space no token. `!` stands for a text that has no row of
// tokens. Blanks and names; numbers of each base, at the limits of 64 bits; suffixes; runs that begin with a digit; letters; texts;
// marks, the longest first; print fmts of Linux 6.1: function, print, sys_enter, sys_exit, sched_wakeup and sched_switch. Then bytes
// that are no text, in hexadecimal.
pub(crate) static ROWS: &str = r#"outline  => 
outline a => N
outline _ => N
outline REC->pid => NnnMmNnn
outline a1_B2 _9 => Nnnnn Nn
outline a b => N N
outline 0 => D
outline 7 => D
outline 18446744073709551615 => Dddddddddddddddddddd
outline 18446744073709551616 => !
outline 0xffffffffffffffff => Dddddddddddddddddd
outline 0x10000000000000000 => !
outline 00000000000000000000007 => Ddddddddddddddddddddddd
outline 01777777777777777777777 => Ddddddddddddddddddddddd
outline 02000000000000000000000 => !
outline 1u 2U 3l 4LL 5lL 6Ll 7ul 8lu 9LLU 0xffULL 017Lu => Dd Dd Dd Ddd Ddd Ddd Ddd Ddd Dddd Ddddddd Ddddd
outline 1uu => !
outline 1lul => !
outline 1lll => !
outline 08 => !
outline 0X1f => !
outline 0x => !
outline 0xu => !
outline 1a => !
outline 12_ => !
outline 3 a => D N
outline 0b1 => !
outline '' => !
outline ''' => !
outline 'ab' => !
outline '\'' => Cccc
outline '\\' => Cccc
outline '\x41' => Cccccc
outline '\x4' => !
outline '\x' => Cccc
outline '\0' '\12' '\377' '\400' => Cccc Ccccc Cccccc Cccccc
outline '\1234' => !
outline '\q' => Cccc
outline ' => !
outline '\' => !
outline "a b" "" => Ttttt Tt
outline "\"" "\\" => Tttt Tttt
outline "\x41\101\n" x => Tttttttttttt N
outline "\ => !
outline "a => !
outline "a\" => !
outline "'"'"' => TttCcc
outline ->-> - > => MmMm M M
outline <<<=>>>= => MmMmMmMm
outline a<<=b => !
outline ==!=&&|| => MmMmMmMm
outline a=b => !
outline a---b => NMMMN
outline &&&|||!~ => MmMMmMMM
outline ()[]{},?:+-*/%<>&^|!~ => MMMMMMMMMMMMMMMMMMMMM
outline a;b => !
outline a.b => !
outline REC->x[1]?"y":"n" => NnnMmNMDMMTttMTtt
outline " %ps <-- %ps", (void *)REC->ip, (void *)REC->parent_ip => TtttttttttttttM MNnnn MMNnnMmNnM MNnnn MMNnnMmNnnnnnnnn
outline "%ps: %s", (void *)REC->ip, REC->buf => TttttttttM MNnnn MMNnnMmNnM NnnMmNnn
outline "NR %ld (%lx, %lx, %lx, %lx, %lx, %lx)", REC->id, REC->args[0], REC->args[1], REC->args[2], REC->args[3], REC->args[4], REC->args[5] => TttttttttttttttttttttttttttttttttttttttM NnnMmNnM NnnMmNnnnMDMM NnnMmNnnnMDMM NnnMmNnnnMDMM NnnMmNnnnMDMM NnnMmNnnnMDMM NnnMmNnnnMDM
outline "NR %ld = %ld", REC->id, REC->ret => TtttttttttttttM NnnMmNnM NnnMmNnn
outline "comm=%s pid=%d prio=%d target_cpu=%03d", REC->comm, REC->pid, REC->prio, REC->target_cpu => TtttttttttttttttttttttttttttttttttttttttM NnnMmNnnnM NnnMmNnnM NnnMmNnnnM NnnMmNnnnnnnnnn
outline "prev_comm=%s prev_pid=%d prev_prio=%d prev_state=%s%s ==> next_comm=%s next_pid=%d next_prio=%d", REC->prev_comm, REC->prev_pid, REC->prev_prio, (REC->prev_state & ((((0x00000000 | 0x00000001 | 0x00000002 | 0x00000004 | 0x00000008 | 0x00000010 | 0x00000020 | 0x00000040) + 1) << 1) - 1)) ? __print_flags(REC->prev_state & ((((0x00000000 | 0x00000001 | 0x00000002 | 0x00000004 | 0x00000008 | 0x00000010 | 0x00000020 | 0x00000040) + 1) << 1) - 1), "|", { 0x00000001, "S" }, { 0x00000002, "D" }, { 0x00000004, "T" }, { 0x00000008, "t" }, { 0x00000010, "X" }, { 0x00000020, "Z" }, { 0x00000040, "P" }, { 0x00000080, "I" }) : "R", REC->prev_state & (((0x00000000 | 0x00000001 | 0x00000002 | 0x00000004 | 0x00000008 | 0x00000010 | 0x00000020 | 0x00000040) + 1) << 1) ? "+" : "", REC->next_comm, REC->next_pid, REC->next_prio => TttttttttttttttttttttttttttttttttttttttttttttttttttttttttttttttttttttttttttttttttttttttttttttttttM NnnMmNnnnnnnnnM NnnMmNnnnnnnnM NnnMmNnnnnnnnnM MNnnMmNnnnnnnnnn M MMMMDddddddddd M Dddddddddd M Dddddddddd M Dddddddddd M Dddddddddd M Dddddddddd M Dddddddddd M DdddddddddM M DM Mm DM M DMM M NnnnnnnnnnnnnMNnnMmNnnnnnnnnn M MMMMDddddddddd M Dddddddddd M Dddddddddd M Dddddddddd M Dddddddddd M Dddddddddd M Dddddddddd M DdddddddddM M DM Mm DM M DMM TttM M DdddddddddM Ttt MM M DdddddddddM Ttt MM M DdddddddddM Ttt MM M DdddddddddM Ttt MM M DdddddddddM Ttt MM M DdddddddddM Ttt MM M DdddddddddM Ttt MM M DdddddddddM Ttt MM M TttM NnnMmNnnnnnnnnn M MMMDddddddddd M Dddddddddd M Dddddddddd M Dddddddddd M Dddddddddd M Dddddddddd M Dddddddddd M DdddddddddM M DM Mm DM M Ttt M TtM NnnMmNnnnnnnnnM NnnMmNnnnnnnnM NnnMmNnnnnnnnn
bytes 20090d0a =>     
bytes 610a62 => N N
bytes 61ff => !
bytes 2761272027222720270a27 => Ccc Ccc Ccc
bytes 2700272027ff27 => Ccc Ccc
bytes 22ff000a22 => Ttttt
tokens 1500||a+| => 3000 3000
tokens 70000||a| => 1 70000"#;
