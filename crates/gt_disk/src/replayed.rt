// A file in a replay of the calls that changed a disk.
ghost use Rattle.std.specs.Prelude.{◌≡◌, length, take, Some, IfOk};
ghost use Rattle.gt_disk.specs.Files.{appended, grow};
ghost use Rattle.gt_disk.specs.Calls.{changed, content};
ghost use Rattle.gt_disk.specs.Stopped.{cell_of, chosen, least, junk};

use crate::Stop;
use crate::call::Call;
use std::alloc::{AllocError, Global};

/// What a read of a file shows, and what a stop may leave of it.
#[derive(Drop)]
pub enum Replayed {
    /// It lasts.
    Still(Option<Vec<u8>>),
    /// What lasts, the bytes that stand behind it, and how many bytes were appended.
    Grown(Option<Vec<u8>>, Vec<u8>, usize),
    /// It was written or removed, and not synced since.
    Loose(Option<Vec<u8>>),
}

impl Replayed {
    /// The file after a call on it.
    pub fn after(self, alloc: Global, call: &Call) -> Result<Replayed, AllocError>
        ensures { IfOk result (λ r. cell_of r ≡ changed (cell_of self) call.now) }
    {
        match call {
            Call::Write(_, bytes) => Ok(Replayed::Loose(Some(bytes.as_slice().to_vec(alloc)?))),
            Call::Append(_, piece, kept) => self.grown(alloc, piece, *kept),
            Call::Remove(_, true) => Ok(Replayed::Loose(None)),
            Call::Remove(_, false) => Ok(Replayed::Loose(self.shown(alloc)?)),
            Call::Sync(_) => Ok(Replayed::Still(self.shown(alloc)?)),
        }
    }

    // After an append: of its piece the first bytes are there.
    fn grown(self, alloc: Global, piece: &[u8], kept: usize) -> Result<Replayed, AllocError>
        ensures { IfOk result (λ r. cell_of r ≡ record { shown = appended (cell_of self).shown (take kept piece.now); state = grow (length piece.now) (cell_of self).state }) }
    {
        let there = &piece[..kept.min(piece.len())];
        match self {
            Replayed::Still(synced) => Ok(Replayed::Grown(
                synced,
                there.to_vec(alloc)?,
                piece.len(),
            )),
            Replayed::Grown(synced, mut more, count) => {
                more.extend_from_slice(there)?;
                match count.checked_add(piece.len()) {
                    Some(sum) => Ok(Replayed::Grown(synced, more, sum)),
                    None => Err(AllocError),
                }
            }
            Replayed::Loose(shown) => Ok(Replayed::Loose(Some(joined(alloc, shown, there)?))),
        }
    }

    // What a read shows.
    fn shown(self, alloc: Global) -> Result<Option<Vec<u8>>, AllocError>
        ensures { IfOk result (λ v. content v ≡ (cell_of self).shown) }
    {
        match self {
            Replayed::Still(shown) => Ok(shown),
            Replayed::Grown(synced, more, _) => Ok(Some(joined(alloc, synced, &more)?)),
            Replayed::Loose(shown) => Ok(shown),
        }
    }

    /// What a stop leaves, by choice.
    pub fn left(self, alloc: Global, choice: Stop) -> Result<Option<Vec<u8>>, AllocError>
        ensures { IfOk result (λ v. content v ≡ chosen choice (cell_of self)) }
    {
        match choice {
            Stop::Least => Ok(self.least()),
            Stop::Most => self.shown(alloc),
            Stop::Junk => self.junk(alloc),
        }
    }

    fn least(self) -> Option<Vec<u8>>
        ensures { content result ≡ least (cell_of self).state }
    {
        match self {
            Replayed::Still(shown) => shown,
            Replayed::Grown(synced, _, _) => synced,
            Replayed::Loose(_) => None,
        }
    }

    fn junk(self, alloc: Global) -> Result<Option<Vec<u8>>, AllocError>
        ensures { IfOk result (λ v. content v ≡ junk (cell_of self).state) }
    {
        match self {
            Replayed::Still(shown) => Ok(shown),
            Replayed::Grown(synced, _, count) => {
                let more = vec![in alloc; 0xAA; count / 2 + count % 2]?;
                Ok(Some(joined(alloc, synced, &more)?))
            }
            Replayed::Loose(_) => Ok(Some(vec![in alloc; 0xFF; 1]?)),
        }
    }
}

// Bytes with a piece behind them.
fn joined(alloc: Global, front: Option<Vec<u8>>, piece: &[u8]) -> Result<Vec<u8>, AllocError>
    ensures { IfOk result (λ v. Some v.items ≡ appended (content front) piece.now) }
{
    let mut bytes = match front {
        Some(bytes) => bytes,
        None => Vec::new(alloc),
    };
    bytes.extend_from_slice(piece)?;
    Ok(bytes)
}
