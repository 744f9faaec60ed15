// Lines and inputs with their answers, worked out by hand from the rules: what a contract cannot show, that the rules
// are the ones that were wanted.
#![tactic(auto)]

#[cfg(test)]
mod tests {
    use script::inputs::play_input;
    use script::players::Player;
    use std::alloc::Global;
    use std::process::Abort;
    use std::test::Fail;

    // The input prints just these bytes.
    fn prints(rt: &impl Abort, heap: Global, input: &[u8], expected: &[u8]) -> Result<(), Fail> {
        let played = play_input(heap, input)?;
        assert!(rt; played.output.as_slice() == expected);
        Ok(())
    }

    #[test]
    fn an_empty_input_has_no_lines(rt: HostRuntime) -> Result<(), Fail> {
        prints(&rt, rt.alloc(), b"", b"= 0 0\n")
    }

    #[test]
    fn a_last_line_without_its_end_is_counted_and_refused(rt: HostRuntime) -> Result<(), Fail> {
        let heap = rt.alloc();
        prints(&rt, heap, b"R 1", b"1 R 2 0\n= 1 1\n")?;
        prints(&rt, heap, b"R x", b"1 R 2 1\n= 1 1\n")?;
        prints(&rt, heap, b"R 0", b"1 R 2 0\n= 1 1\n")?;
        prints(&rt, heap, b"\nR 1", b"1 ? 2 0\n2 R 2 0\n= 2 2\n")
    }

    #[test]
    fn each_letter_names_what_is_not_there(rt: HostRuntime) -> Result<(), Fail> {
        let heap = rt.alloc();
        prints(&rt, heap, b"C 1 3 3 2 0 1 2\n", b"1 C 4 5\n= 1 1\n")?;
        prints(&rt, heap, b"A 1 oak\n", b"1 A 4 1\n= 1 1\n")?;
        prints(&rt, heap, b"R 1\n", b"1 R 4 1\n= 1 1\n")?;
        prints(&rt, heap, b"E 1 0 3\n", b"1 E 4 1\n= 1 1\n")?;
        prints(&rt, heap, b"Z 1\n", b"1 Z 4 1\n= 1 1\n")?;
        prints(&rt, heap, b"F 1 1\n", b"1 F 4 2\n= 1 1\n")?;
        prints(&rt, heap, b"G 1\n", b"1 G 4 1\n= 1 1\n")?;
        prints(&rt, heap, b"H 1\n", b"1 H 4 1\n= 1 1\n")?;
        prints(&rt, heap, b"D 0\n", b"1 D 4 1\n= 1 1\n")?;
        prints(&rt, heap, b"K 0\nX 0\n", b"1 K 4 1\n2 X 4 1\n= 2 2\n")?;
        prints(&rt, heap, b"S 0\nT 0\n", b"1 S 4 1\n2 T 4 1\n= 2 2\n")
    }

    #[test]
    fn numbers_have_one_to_five_digits_and_no_leading_zero(rt: HostRuntime) -> Result<(), Fail> {
        let heap = rt.alloc();
        prints(&rt, heap, b"D 0\n", b"1 D 4 1\n= 1 1\n")?;
        prints(&rt, heap, b"D 99999\n", b"1 D 4 1\n= 1 1\n")?;
        prints(&rt, heap, b"D 100000\n", b"1 D 2 1\n= 1 1\n")?;
        prints(&rt, heap, b"D 00\n", b"1 D 2 1\n= 1 1\n")?;
        prints(&rt, heap, b"D 07\n", b"1 D 2 1\n= 1 1\n")?;
        prints(&rt, heap, b"D +7\n", b"1 D 2 1\n= 1 1\n")?;
        prints(&rt, heap, b"D 7/\n", b"1 D 2 1\n= 1 1\n")?;
        prints(&rt, heap, b"D 7:\n", b"1 D 2 1\n= 1 1\n")
    }

    #[test]
    fn a_refusal_of_form_comes_before_one_of_range(rt: HostRuntime) -> Result<(), Fail> {
        let heap = rt.alloc();
        prints(&rt, heap, b"F 9 x\n", b"1 F 2 2\n= 1 1\n")?;
        prints(&rt, heap, b"F 9 99 9\n", b"1 F 2 0\n= 1 1\n")?;
        prints(&rt, heap, b"F 9 99\n", b"1 F 3 1\n= 1 1\n")?;
        prints(&rt, heap, b"A 99\n", b"1 A 2 0\n= 1 1\n")?;
        prints(&rt, heap, b"A 99 \x01\n", b"1 A 3 1\n= 1 1\n")
    }

    #[test]
    fn a_line_has_eighty_bytes_with_its_end(rt: HostRuntime) -> Result<(), Fail> {
        let heap = rt.alloc();
        let eighty =
            b"A 1 aaaaaaaaaabbbbbbbbbbccccccccccddddddddddeeeeeeeeeeffffffffffgggggggggghhhhh\n";
        let more =
            b"A 1 aaaaaaaaaabbbbbbbbbbccccccccccddddddddddeeeeeeeeeeffffffffffgggggggggghhhhhh\n";
        prints(&rt, heap, eighty, b"1 A 3 2\n= 1 1\n")?;
        prints(&rt, heap, more, b"1 A 2 0\n= 1 1\n")
    }

    #[test]
    fn an_input_has_at_most_32768_bytes(rt: HostRuntime) -> Result<(), Fail> {
        let heap = rt.alloc();
        let most = vec![in heap; b'\n'; 32768]?;
        let played = play_input(heap, most.as_slice())?;
        assert_eq!(rt; played.lines, 32768);
        assert_eq!(rt; played.refused, 32768);
        let more = vec![in heap; b'\n'; 32769]?;
        prints(&rt, heap, more.as_slice(), b"! long\n")
    }

    #[test]
    fn an_answer_is_written_in_front_and_nothing_behind_it(rt: HostRuntime) -> Result<(), Fail> {
        let mut out = [7; 130];
        let mut player = Player::new();
        let length = player.play_line(b"G 4\n", &mut out).ok().ok_or("no room")?;
        assert_eq!(rt; length, 8);
        let (front, behind) = out.split_at(8);
        assert!(rt; front == b"1 G 4 1\n".as_slice());
        assert!(rt; behind == [7; 122].as_slice());
        Ok(())
    }

    #[test]
    fn without_room_nothing_is_played(rt: HostRuntime) {
        let mut out = [7; 127];
        let mut player = Player::new();
        assert!(rt; player.play_line(b"G 4\n", &mut out).is_err());
        assert!(rt; player.print_end(&mut out).is_err());
        assert!(rt; out == [7; 127]);
        assert_eq!(rt; player.lines, 0);
    }
}
