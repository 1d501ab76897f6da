// Handles out of their bytes and into them, in the room of the longer form.
ghost use Rattle.std.specs.Prelude.{◌≡◌};
ghost use Rattle.keywrap.specs.Meaning.{whole_handle};

use crate::Handle;
use aes::Key;
use aes::word::{block_at, put_block};

impl From<[u8; 64]> for Handle {
    ghost from_gives = { λ bytes handle. whole_handle handle ≡ bytes };

    #[tactic(auto, using(crate::proofs::Parts::in_blocks))]
    fn from(bytes: [u8; 64]) -> Handle {
        let aad = block_at(&bytes, 0);
        let tag = block_at(&bytes, 16);
        let low = block_at(&bytes, 32);
        let high = block_at(&bytes, 48);
        Handle {
            aad,
            tag,
            ciphertext: Key { low, high },
        }
    }
}

impl From<Handle> for [u8; 64] {
    ghost from_gives = { λ handle bytes. bytes ≡ whole_handle handle };

    fn from(handle: Handle) -> [u8; 64] {
        let mut bytes = [0; 64];
        put_block(&mut bytes, 0, handle.aad);
        put_block(&mut bytes, 16, handle.tag);
        put_block(&mut bytes, 32, handle.ciphertext.low);
        put_block(&mut bytes, 48, handle.ciphertext.high);
        bytes
    }
}
