// RFC 8452's examples, all by POLYVAL: dot(a, b) is that of one block, and with x^128, the one of dot, for H, that of two blocks is their sum.
use crate::case::{Case, HexBlock};
use aes::Block;
use std::io;
use std::io::Write;

// x^127 + x^126 + x^121 + 1
const ONE: Block = Block {
    a: 1,
    b: 0,
    c: 0,
    d: 0xC200_0000,
};

impl<W: Write> Case<'_, W> {
    pub fn sum(&mut self) -> io::Result<()> {
        let sum = polyval::polyval(ONE, &self.example.field::<32>(0));
        self.line("sum", HexBlock(sum))
    }

    pub fn dot(&mut self) -> io::Result<()> {
        let product = polyval::polyval(self.example.block(16), &self.example.field::<16>(0));
        self.line("dot", HexBlock(product))
    }

    // H, and up to seven blocks.
    pub fn polyval(&mut self) -> io::Result<()> {
        let blocks = self.example.field::<112>(16);
        let end = 16 * (self.example.blocks() % 8) as usize;
        let hash = polyval::polyval(self.example.block(0), &blocks[..end]);
        self.line("polyval", HexBlock(hash))
    }
}
