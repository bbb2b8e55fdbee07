// Lines for standard output, gathered so that a write takes many.
use crate::complaint::Complaint;
use std::alloc::{AllocError, Global};
use wing_meters::figures::Figures;

const PAGE: usize = 65536;

// No line has over 42 bytes.
const LINE: usize = 64;

// The lines that are not written yet.
#[derive(Drop)]
pub struct Page<'a, P> {
    to: &'a P,
    text: String,
}

impl<'a, P: Print> Page<'a, P> {
    // The header is written at once.
    pub fn begin(alloc: Global, to: &'a P) -> Result<Page<'a, P>, Complaint> {
        let text = String::with_capacity(alloc, PAGE)?;
        let mut page = Page { to, text };
        page.text.push_str("id,strip,held,sum,mean,rest,top\n")?;
        page.flush()?;
        Ok(page)
    }

    pub fn flush(&mut self) -> Result<(), Complaint> {
        let written = self.to.write_all(self.text.as_bytes());
        self.text.clear();
        written.map_err(|_| Complaint::Unwritten)
    }

    pub fn line(&mut self, id: u16, strip: u16, f: Figures) -> Result<(), Complaint> {
        if PAGE - LINE < self.text.len() {
            self.flush()?;
        }
        put(&mut self.text, id, strip, f)?;
        Ok(())
    }
}

fn put(text: &mut String, id: u16, strip: u16, f: Figures) -> Result<(), AllocError> {
    let Figures {
        held,
        sum,
        mean,
        rest,
        top,
    } = f;
    writeln!(text, "{id},{strip},{held},{sum},{mean},{rest},{top}")
}
