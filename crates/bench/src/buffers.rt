// The four buffers of the tables, and calls on them.
use layout::{CONTROL_WORDS, FRAME_BUFFER_WORDS, Lent, PAGE_BUFFER_WORDS, RANGE_BUFFER_WORDS};
use words::answers::Answer;

#[derive(Drop)]
pub struct Buffers {
    pub control: [u32; CONTROL_WORDS],
    pub frames: [u32; FRAME_BUFFER_WORDS],
    pub pages: [u32; PAGE_BUFFER_WORDS],
    pub ranges: [u32; RANGE_BUFFER_WORDS],
}

impl Buffers {
    // A pool of `pool` frames, with no space open.
    pub fn of_pool(pool: u32) -> Buffers {
        let mut b = Buffers {
            control: [0; CONTROL_WORDS],
            frames: [0; FRAME_BUFFER_WORDS],
            pages: [0; PAGE_BUFFER_WORDS],
            ranges: [0; RANGE_BUFFER_WORDS],
        };
        let _ = tables::set_up_pool(
            &mut b.control,
            &mut b.frames,
            &mut b.pages,
            &mut b.ranges,
            pool,
        );
        b
    }

    // The buffers lent to be read.
    pub fn lent(&self) -> Lent<'_> {
        Lent {
            control: &self.control,
            frames: &self.frames,
            pages: &self.pages,
            ranges: &self.ranges,
        }
    }

    pub fn open(&mut self, space: u32) -> Answer {
        tables::open(
            &mut self.control,
            &self.frames,
            &self.pages,
            &self.ranges,
            space,
        )
    }

    pub fn map(&mut self, space: u32, first: u32, count: u32, rights: u32) -> Answer {
        tables::map(
            &self.control,
            &mut self.frames,
            &mut self.pages,
            &mut self.ranges,
            space,
            first,
            count,
            rights,
        )
    }

    pub fn unmap(&mut self, space: u32, first: u32, count: u32) -> Answer {
        tables::unmap(
            &mut self.control,
            &mut self.frames,
            &mut self.pages,
            &mut self.ranges,
            space,
            first,
            count,
        )
    }
}
