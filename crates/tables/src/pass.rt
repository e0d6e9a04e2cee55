// One pass of bytes through tables: start, feed, close and write, up to the first refusal.
use crate::Tables;
use sheet::{Copied, Refused};

impl Tables {
    pub fn pass(&mut self, bytes: &[u8], out: &mut [u8]) -> Result<Copied, Refused> {
        sheet::copy(
            &mut self.exprs,
            &mut self.stmts,
            &mut self.decls,
            &mut self.marks,
            bytes,
            out,
        )
    }
}
