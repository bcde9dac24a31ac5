//! Mappers, with their results and errors.
pub use x86_64_mappers::calls::MapRangeErrorIn;
pub use x86_64_mappers::mapped_page_table::{
    MappedPageTable, MappedPageTable57, MappedPageTableIn,
};
pub use x86_64_mappers::mapper::{
    CleanUp, CleanUp57, FrameSink, MapRangeError, MapRangeError57, Mapper, Mapper57,
    MapperAllSizes, MapperAllSizes57, TableAccess, Translate, Translate57,
};
pub use x86_64_mappers::offset_page_table::{
    OffsetPageTable, OffsetPageTable57, OffsetPageTableIn,
};
pub use x86_64_mappers::recursive_page_table::{
    InvalidPageTable, RecursivePageTable, RecursivePageTable57, RecursivePageTableIn,
};
pub use x86_64_tables::errors::{FlagUpdateError, MapToError, TranslateError, UnmapError};
pub use x86_64_tables::page_tables::{PageTables, PageTables57, Tables, TablesIn};
pub use x86_64_tables::phys_memory::PageTableFrameMapping;
pub use x86_64_tables::tokens::{
    MapperFlush, MapperFlush57, MapperFlushAll, MapperFlushIn, MapperFlushRange,
    MapperFlushRange57, MapperFlushRangeIn,
};
pub use x86_64_tables::translation::{MappedFrame, TranslateResult};
