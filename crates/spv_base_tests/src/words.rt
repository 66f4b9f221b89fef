//! Modules are read and written by readers and writers that do well, and by those that fail at some calls.

use spv_samples::{Failures, Pieces, Shelf, Trouble};
use spv_words::{
    FromRead, FromWrite, Image, Order, Sink, Source, VersionSource, Versioned, WordError, image_of,
    read_image, replace_version, write_all, write_image,
};
use std::alloc::Global;
use std::test::Fail;

/// The header of the smallest module: version 1.6, generator 9, bound 5.
const HEADER: [u8; 20] = [
    0x03, 0x02, 0x23, 0x07, 0x00, 0x06, 0x01, 0x00, 9, 0, 0, 0, 5, 0, 0, 0, 0, 0, 0, 0,
];

/// The same words, the highest byte first.
const BIG_HEADER: [u8; 20] = [
    0x07, 0x23, 0x02, 0x03, 0x00, 0x01, 0x06, 0x00, 0, 0, 0, 9, 0, 0, 0, 5, 0, 0, 0, 0,
];

/// The header and then bytes up to a size.
fn long_module(alloc: Global, size: usize) -> Result<Vec<u8>, Fail> {
    let mut bytes = HEADER.to_vec(alloc)?;
    bytes.resize(size, 0xa5)?;
    Ok(bytes)
}

/// The answer to bytes that come in pieces of 7, read as version 1.6.
fn answer(alloc: Global, bytes: &[u8]) -> Result<(Image, Order), WordError> {
    let mut reader = Versioned::new(FromRead::new(Pieces::new(bytes, 7, Failures::none())));
    reader.read_as_1_6();
    read_image(alloc, &mut reader)
}

#[test]
fn reads_pieces(rt: HostRuntime) -> Result<(), Fail> {
    for version in 0..7 {
        let mut bytes = BIG_HEADER;
        bytes[6] = version;
        let (image, order) = answer(rt.alloc(), &bytes)?;
        assert!(rt;
            order == Order::Big && image.octets() == HEADER.as_slice(),
            "1.{version}"
        );
    }
    let mut bytes = HEADER;
    bytes[5] = 3;
    replace_version(&mut bytes);
    let (image, order) = image_of(rt.alloc(), &bytes)?;
    assert!(rt; order == Order::Little && image.octets() == HEADER.as_slice());
    Ok(())
}

/// Whether the reading of bytes ends as told, and the reader counts what the inner one does, where only so many reads
/// of 7 bytes go well.
fn reads_as_told(alloc: Global, bytes: &[u8], reads: u64, fails: bool) -> bool {
    let mut reader = FromRead::new(Pieces::new(bytes, 7, Failures::once_after(reads)));
    let has_failed = read_image(alloc, &mut reader).is_err();
    let failures = reader.failures;
    has_failed == fails && (failures == 1) == fails && failures == reader.inner.failures.count
}

#[test]
fn a_failed_read_is_told(rt: HostRuntime) -> Result<(), Fail> {
    let bytes = long_module(rt.alloc(), 100)?;
    // 15 reads give the bytes, and one more finds the end.
    for n in 0..20 {
        assert!(rt; reads_as_told(rt.alloc(), &bytes, n, n < 16), "call {n}");
    }
    Ok(())
}

/// Writes an image in pieces, and then as bytes: what stands on the shelf.
fn written(alloc: Global, image: &Image, order: Order) -> Result<Vec<u8>, Fail> {
    let mut writer = FromWrite::new(Shelf::new(Vec::new(alloc), 7, Failures::none()));
    write_image(image, order, &mut writer)?;
    write_all(b" and more bytes", &mut writer)?;
    Ok(writer.inner.kept)
}

#[test]
fn writes_pieces(rt: HostRuntime) -> Result<(), Fail> {
    let (image, _) = image_of(rt.alloc(), &HEADER)?;
    let little = written(rt.alloc(), &image, Order::Little)?;
    assert!(rt; little.starts_with(&HEADER) && little.ends_with(b" and more bytes"));
    let big = written(rt.alloc(), &image, Order::Big)?;
    assert!(rt; big.starts_with(&BIG_HEADER) && big.len() == 35);
    Ok(())
}

/// Whether the writing of an image ends as told, the writer counts what the inner one does, and a beginning of the
/// bytes is written, where only so many writes of 7 bytes go well.
fn writes_as_told(
    alloc: Global,
    image: &Image,
    writes: u64,
    trouble: Trouble,
    fails: bool,
) -> bool {
    let mut shelf = Shelf::new(Vec::new(alloc), 7, Failures::once_after(writes));
    shelf.trouble = trouble;
    let mut writer = FromWrite::new(shelf);
    let answer = write_image(image, Order::Little, &mut writer);
    let (failures, kept) = (writer.failures, &writer.inner.kept);
    (answer == Err(WordError::W1)) == fails
        && (failures == 1) == fails
        && failures == writer.inner.failures.count
        && (!fails || kept.len() as u64 == writes.wrapping_mul(7))
        && image.octets().starts_with(kept)
}

#[test]
fn a_failed_write_is_told(rt: HostRuntime) -> Result<(), Fail> {
    let bytes = long_module(rt.alloc(), 100)?;
    let (image, _) = image_of(rt.alloc(), &bytes)?;
    for n in 0..20 {
        for trouble in [Trouble::Fails, Trouble::TakesNothing] {
            let is_told = writes_as_told(rt.alloc(), &image, n, trouble, n < 15);
            assert!(rt; is_told, "call {n}");
        }
    }
    Ok(())
}

/// Reads up to the end of input, and makes each read again that failed: how many bytes came, and how many reads failed.
fn read_through<R: Source>(from: &mut R) -> (u64, u64) {
    let mut piece = [0u8; 8192];
    let (mut bytes, mut failed) = (0u64, 0u64);
    for _ in 0..u64::MAX {
        match from.read(&mut piece) {
            Ok(0) => break,
            Ok(n) => bytes = bytes.wrapping_add(n as u64),
            Err(_) => failed = failed.wrapping_add(1),
        }
    }
    (bytes, failed)
}

/// Writes bytes, and makes each write again that failed: how many did.
fn write_through<W: Sink>(bytes: &[u8], to: &mut W) -> u64 {
    let mut failed = 0u64;
    let mut rest = bytes;
    for _ in 0..u64::MAX {
        if rest.is_empty() {
            break;
        }
        match to.write(rest) {
            Ok(n) => rest = &rest[n..],
            Err(_) => failed = failed.wrapping_add(1),
        }
    }
    failed
}

/// Whether bytes in pieces of 4,096, of which each is written, come out as they are, where the call after each 100 does
/// not go well, and the writer counts so many failures.
fn is_written(alloc: Global, bytes: &[u8], trouble: Trouble, failures: u64) -> bool {
    let mut shelf = Shelf::new(Vec::new(alloc), 4096, Failures::after_each(100));
    shelf.trouble = trouble;
    let mut writer = FromWrite::new(shelf);
    let failed = write_through(bytes, &mut writer);
    let counts = [failed, writer.failures, writer.inner.failures.count];
    counts == [failures; 3] && writer.inner.kept.as_slice() == bytes
}

/// Whether bytes in pieces of 4,096 give an image of so many words, of which the bytes in the other order give the same
/// image again.
fn is_read(alloc: Global, bytes: &[u8], words: u32) -> Result<bool, Fail> {
    let mut reader = FromRead::new(Pieces::new(bytes, 4096, Failures::none()));
    let (image, _) = read_image(alloc, &mut reader)?;
    let mut writer = FromWrite::new(Shelf::new(Vec::new(alloc), 4096, Failures::none()));
    write_image(&image, Order::Big, &mut writer)?;
    let (again, order) = image_of(alloc, &writer.inner.kept)?;
    let is_same = image.len() == words && order == Order::Big && again.octets() == bytes;
    Ok(is_same && again.into_octets(Order::Big).as_slice() == writer.inner.kept.as_slice())
}

/// 16,777,216 bytes in pieces of 4,096 take 4,096 calls, and the last read finds the end: 40 calls fail.
#[test]
fn the_greatest_module_goes_both_ways(rt: HostRuntime) -> Result<(), Fail> {
    let bytes = long_module(rt.alloc(), 16_777_216)?;
    let pieces = Pieces::new(&bytes, 4096, Failures::after_each(100));
    let mut reader = FromRead::new(pieces);
    assert!(rt; read_through(&mut reader) == (16_777_216, 40));
    assert!(rt; reader.failures == 40 && reader.inner.failures.count == 40);
    for trouble in [Trouble::Fails, Trouble::TakesNothing] {
        assert!(rt; is_written(rt.alloc(), &bytes, trouble, 40));
    }
    assert!(rt; is_read(rt.alloc(), &bytes, 4_194_304)?);
    Ok(())
}
