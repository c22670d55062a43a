//! How a page of a heap in memory is written out when it is drained: its rows alone, one behind the
//! other, without the links that mean nothing any more.
ghost use Rattle.std.specs.Prelude.{◌≡◌, ◌+◌, ◌≤◌, ◌++◌, None, length, replicate};
ghost use Rattle.hg_base.specs.Content.{object_size, row_object};
ghost use Rattle.hg_base.specs.PlainDrains.{row_bytes, page_bytes};

use arrayvec::ArrayVec;

/// More bytes of a page.
fn push_bytes(page: &mut ArrayVec<u8, 4096>, bytes: &[u8])
    requires { length page.old.items + length bytes.now ≤ 4096 }
    ensures { page.new.items ≡ page.old.items ++ bytes.now }
{
    match page.try_extend_from_slice(bytes) {
        Ok(()) => {}
        Err(_) => unreachable!(),
    }
}

/// So many zeros.
fn push_zeros(page: &mut ArrayVec<u8, 4096>, count: usize)
    requires { length page.old.items + count ≤ 4096 }
    ensures { page.new.items ≡ page.old.items ++ replicate count 0 }
{
    let zeros: [u8; 4096] = [0; 4096];
    push_bytes(page, &zeros[..count]);
}

/// A row that leads to nothing.
pub(crate) fn push_row(rows: &mut ArrayVec<u8, 4096>, payload: &[u8])
    requires { length rows.old.items + object_size (row_object payload.now None) ≤ 4096 }
    ensures { rows.new.items ≡ rows.old.items ++ row_bytes payload.now }
{
    let count = payload.len();
    push_bytes(rows, &(count as u16).to_le_bytes());
    rows.push(1);
    push_zeros(rows, 13);
    push_bytes(rows, payload);
    push_zeros(rows, 16 * ((count + 15) / 16) - count);
}

/// The page of these rows.
pub(crate) fn write_page(rows: &[u8], out: &mut [u8])
    requires few { length rows.now ≤ 4032 }
    requires whole { length out.old ≡ 4096 }
    ensures { out.new ≡ page_bytes rows.now }
{
    let mut page: ArrayVec<u8, 4096> = ArrayVec::new();
    page.push(72);
    page.push(0);
    push_bytes(&mut page, &(64 + rows.len() as u16).to_le_bytes());
    push_zeros(&mut page, 60);
    push_bytes(&mut page, rows);
    push_zeros(&mut page, 4032 - rows.len());
    out.copy_from_slice(page.as_slice());
}
