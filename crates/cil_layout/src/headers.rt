//! The headers of a file as lists of fields (ECMA-335 II.25.2, II.25.3).

/// What a field of a header holds.
#[derive(Clone, Copy, Debug, PartialEq, Eq)]
pub enum Value {
    /// The same number in every file.
    Is(u64),
    /// The flags of a program or of a library (II.25.2.2.1).
    FileFlags,
    /// The bytes of the one section.
    SectionSize,
    /// These up to a multiple of 512, as they stand in the file.
    RawSize,
    /// What is loaded: 0x2000, and the section up to a multiple of 0x2000.
    ImageSize,
}

use Value::{FileFlags, ImageSize, Is, RawSize, SectionSize};

/// A field of a header: how many bytes it takes, and what it holds.
#[derive(Clone, Copy, Debug, PartialEq, Eq)]
pub struct Field {
    pub width: u8,
    pub value: Value,
}

/// A field of so many bytes.
macro_rules! field {
    ($width:literal, $value:expr) => {
        Field { width: $width, value: $value }
    };
}

/// The fields behind the MS-DOS stub, up to the end of the header of the one section. The zeros up to the section follow.
#[rattlefmt::skip]
pub const HEADER_FIELDS: [Field; 65] = [
    // The PE signature and the COFF header (II.25.2.1, II.25.2.2).
    field!(4, Is(0x4550)),        // PE signature
    field!(2, Is(0x14C)),         // Machine
    field!(2, Is(1)),             // Number of Sections
    field!(4, Is(0)),             // Time/Date Stamp
    field!(4, Is(0)),             // Pointer to Symbol Table
    field!(4, Is(0)),             // Number of Symbols
    field!(2, Is(224)),           // Optional Header Size
    field!(2, FileFlags),         // Characteristics
    // The standard fields of the optional header (II.25.2.3.1).
    field!(2, Is(0x10B)),         // Magic
    field!(1, Is(8)),             // LMajor
    field!(1, Is(0)),             // LMinor
    field!(4, RawSize),           // Code Size
    field!(4, Is(0)),             // Initialized Data Size
    field!(4, Is(0)),             // Uninitialized Data Size
    field!(4, Is(0)),             // Entry Point RVA
    field!(4, Is(0x2000)),        // Base Of Code
    field!(4, Is(0)),             // Base Of Data
    // Those of Windows (II.25.2.3.2).
    field!(4, Is(0x40_0000)),     // Image Base
    field!(4, Is(0x2000)),        // Section Alignment
    field!(4, Is(0x200)),         // File Alignment
    field!(2, Is(4)),             // OS Major
    field!(2, Is(0)),             // OS Minor
    field!(2, Is(0)),             // User Major
    field!(2, Is(0)),             // User Minor
    field!(2, Is(4)),             // SubSys Major
    field!(2, Is(0)),             // SubSys Minor
    field!(4, Is(0)),             // Reserved
    field!(4, ImageSize),         // Image Size
    field!(4, Is(0x200)),         // Header Size
    field!(4, Is(0)),             // File Checksum
    field!(2, Is(3)),             // SubSystem
    field!(2, Is(0x8540)),        // DLL Flags
    field!(4, Is(0x10_0000)),     // Stack Reserve Size
    field!(4, Is(0x1000)),        // Stack Commit Size
    field!(4, Is(0x10_0000)),     // Heap Reserve Size
    field!(4, Is(0x1000)),        // Heap Commit Size
    field!(4, Is(0)),             // Loader Flags
    field!(4, Is(16)),            // Number of Data Directories
    // The data directories (II.25.2.3.3).
    field!(8, Is(0)),             // Export Table
    field!(8, Is(0)),             // Import Table
    field!(8, Is(0)),             // Resource Table
    field!(8, Is(0)),             // Exception Table
    field!(8, Is(0)),             // Certificate Table
    field!(8, Is(0)),             // Base Relocation Table
    field!(8, Is(0)),             // Debug
    field!(8, Is(0)),             // Copyright
    field!(8, Is(0)),             // Global Ptr
    field!(8, Is(0)),             // TLS Table
    field!(8, Is(0)),             // Load Config Table
    field!(8, Is(0)),             // Bound Import
    field!(8, Is(0)),             // IAT
    field!(8, Is(0)),             // Delay Import Descriptor
    field!(4, Is(0x2000)),        // CLI Header, its RVA
    field!(4, Is(72)),            // and its size
    field!(8, Is(0)),             // Reserved
    // The section header (II.25.3).
    field!(8, Is(0x74_7865_742E)), // Name, `.text`
    field!(4, SectionSize),       // VirtualSize
    field!(4, Is(0x2000)),        // VirtualAddress
    field!(4, RawSize),           // SizeOfRawData
    field!(4, Is(0x200)),         // PointerToRawData
    field!(4, Is(0)),             // PointerToRelocations
    field!(4, Is(0)),             // PointerToLinenumbers
    field!(2, Is(0)),             // NumberOfRelocations
    field!(2, Is(0)),             // NumberOfLinenumbers
    field!(4, Is(0x6000_0020)),   // Characteristics: code, executed and read
];
