//! Scripts that are deeper than JSON may nest, made of those that it holds.
use crate::given::{Given, Program};
use anyhow::{Result, bail};
use std::alloc::{AllocError, Global};
use swc_tree::{BlockStmt, DUMMY_SP, Opened, Trees, class};
use swc_tree_node::Kind;

// How many blocks are put round the statements of a script.
const DEPTH: u32 = 200;

// The statements as those of a block, which is a statement alone.
fn put_in_block(
    alloc: Global,
    stmts: Trees<class::Stmt>,
) -> Result<Trees<class::Stmt>, AllocError> {
    let block = BlockStmt {
        span: DUMMY_SP,
        stmts,
    };
    let mut around = Trees::new(alloc);
    around.push(block.close(alloc)?.widen::<class::Stmt>())?;
    Ok(around)
}

// The statements of the block that stands alone.
fn take_out_of_block(mut stmts: Trees<class::Stmt>) -> Option<Trees<class::Stmt>> {
    let stmt = stmts.pop()?;
    match stmt.kind() {
        Kind::BlockStmt => {
            let block: BlockStmt = stmt.narrow::<class::BlockStmt>().open();
            Some(block.stmts)
        }
        _ => None,
    }
}

impl Given {
    /// Puts the statements of a script into 200 blocks, one in another.
    ///
    /// # Errors
    ///
    /// Where the program is no script, or memory is refused.
    pub fn deepen(&mut self, alloc: Global) -> Result<()> {
        let Program::Script(script) = &mut self.program else {
            bail!("a script alone can be made deep");
        };
        for _ in 0..DEPTH {
            let stmts = std::mem::replace(&mut script.body, Trees::new(alloc));
            script.body = put_in_block(alloc, stmts)?;
        }
        Ok(())
    }

    /// Takes them out again, as a pass has left them.
    ///
    /// # Errors
    ///
    /// Where a block is gone.
    pub fn flatten(&mut self, alloc: Global) -> Result<()> {
        let Program::Script(script) = &mut self.program else {
            bail!("a script alone can be made deep");
        };
        for _ in 0..DEPTH {
            let stmts = std::mem::replace(&mut script.body, Trees::new(alloc));
            match take_out_of_block(stmts) {
                Some(inner) => script.body = inner,
                None => bail!("a block is gone"),
            }
        }
        Ok(())
    }
}
