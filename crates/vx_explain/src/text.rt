//! What `--explain` prints of rules and fields, as `scripts/explanations.py` makes it of docs/REFUSALS.md and docs/generated/FIELDS.md.

/// The parts, with a bar between two. Each begins with its word and a blank, and is what is printed for this word.
pub(crate) static TEXT: [u8; 70234] =
    *b"F1 Cause: A byte outside a unit is neither zero nor part of a start code. The
   file isn't an Annex B byte stream, or begins inside a unit.
   Fix: Take the stream out of its container (MP4, TS), or cut it at a start
   code.
|F2 Cause: A byte occurs where emulation prevention forbids it: 00, 01 or 02
   after 00 00, or more than 03 after 00 00 03.
   Fix: Write the unit again, with 03 after each 00 00 that needs it.
|F3 Cause: A unit has no header of two bytes, or its header has
   forbidden_zero_bit 1 or nuh_temporal_id_plus1 0.
   Fix: Cut files only just before a start code. H.265 and H.264 units have
   different headers.
|Y The syntax of sets and headers: `Y source 0 unit 0 field 22 bit 40 Short`.
  `field` is the syntax element that can't be read; `--explain` names it.
  `bit` is where it begins in the RBSP, after the two header bytes and without
  emulation prevention bytes.
  Short
    Cause: The bits end within the field.
    Fix: Send the whole unit, without extensions: it was cut off, or isn't
    version 1 of H.266.
  LongCode
    Cause: An Exp-Golomb code begins with 32 zeros, and no value in H.266 is
    that large.
    Fix: Look for a wrong value in the fields before it, with `show --fields`.
  BadTrailing, BadAlignment
    Cause: The trailing bits aren't a 1 followed by zeros, or the alignment
    bits aren't what they must be.
    Fix: It has fields of a later version, or bytes were added: leave these
    out.
  OutOfRange
    Cause: The field has a value that it may not have.
    Fix: Change the encoder's option for this field.
|P1 Cause: A unit belongs to a layer above 0.
   Fix: Extract the base layer first.
|P2 Cause: An SPS refers to a VPS, so the stream may have several layers.
   Fix: Encode with sps_video_parameter_set_id 0.
|P3 Cause: An SPS has no profile, tier and level: it belongs to a further
   layer.
   Fix: Encode one layer.
|P4 Cause: The chroma format is 4:2:2 or 4:4:4.
   Fix: Encode 4:0:0 or 4:2:0.
|P5 Cause: Samples have more than 10 bits.
   Fix: Encode 8 to 10 bits.
|P6 Cause: Palette mode is on.
   Fix: Turn it off.
|P7 Cause: The resolution may change within a coded layer video sequence.
   Fix: Set sps_res_change_in_clvs_allowed_flag to 0. Reference picture
   resampling may stay enabled.
|P8 Cause: Virtual boundaries are on.
   Fix: Turn them off. Regions of a 360-degree picture are subpictures here.
|P9 Cause: An SPS has extension data.
   Fix: Encode without range extensions (version 1 of H.266).
|P10 Cause: NAL unit types may be mixed within a picture.
    Fix: Encode all slices of a picture with one type.
|P11 Cause: A PPS has an explicit scaling window.
    Fix: Encode without one.
|P12 Cause: Slices are runs of tiles in raster order.
    Fix: Encode rectangular slices (pps_rect_slice_flag 1).
|P13 Cause: A PPS enables reference wraparound.
    Fix: Turn it off: references stop at a subpicture's own borders.
|P14 Cause: A PPS has extension data.
    Fix: Encode without range extensions (version 1 of H.266).
|P15 Cause: An adaptation parameter set has an id above those of its type: 0 to
    3 for LMCS, 0 to 7 for the others.
    Fix: The encoder violates the standard: use ids in this range.
|S1 Cause: A parameter set that is referred to is missing. The line ends with
   its kind and id, such as `PPS 3`.
   Fix: Send the set before the picture that needs it: the stream begins after
   its sets, or a unit was lost.
|S2 Cause: A slice appears where no picture has begun, or after all slices of
   its picture.
   Fix: Send each picture header before its slices, and each slice once.
|S3 Cause: An SPS, a PPS or a prefix APS comes between the slices of a picture.
   Fix: Send it before the picture. A suffix APS may stand there.
|S4 Cause: A picture lacks a slice: the next picture, an end of sequence or the
   end of the stream comes, or a slice other than the next one.
   Fix: Send all slices, in the order of subpictures and addresses.
|S5 Cause: A slice names a subpicture that the picture doesn't have.
   Fix: Send the SPS and PPS that the slice was encoded with.
|S6 Cause: The first picture, or the first after an end of sequence, isn't an
   IDR, CRA or GDR picture.
   Fix: Begin at a random access point.
|S7 Cause: The SPS changes within a coded layer video sequence.
   Fix: Change it at an IDR picture, or at a CRA or GDR picture after an end
   of sequence.
|S8 Cause: A slice's NAL unit type differs from that of the picture's first
   slice.
   Fix: Encode all slices of a picture with one type.
|S9 Cause: A slice's TemporalId differs from its picture's.
   Fix: Give all units of a picture one TemporalId.
|S10 Cause: The width or the height of a PPS differs from its SPS's.
    Fix: Send the SPS and PPS that belong together. A new size needs a new
    sequence.
|S11 Cause: No byte follows a slice header.
    Fix: Send the whole slice.
|S12 Cause: Tiles, slices and subpictures don't form a valid layout. The line
    ends with the fault's number.
    Fix: Send the SPS and PPS that belong together. The faults are:
    - 1: the CTU sizes of both sets differ;
    - 2: subpicture ids are in the wrong set, too few, too short or not all
      different;
    - 3: the subpictures don't cover the picture exactly once;
    - 4: a tile and a subpicture overlap partly;
    - 5: the slices don't cover the picture exactly once;
    - 6: a slice isn't within one subpicture;
    - 7: a slice comes before one to its left or above it.
|S13 Cause: A picture order count doesn't fit in 32 bits.
    Fix: The encoder violates the standard: begin a new sequence before that.
|S14 Cause: SliceQpY is below -QpBdOffset or above 63.
    Fix: Send the PPS that the slice was encoded with (pps_init_qp_minus26).
|S15 Cause: The picture header is inside a slice, but the picture has several
    slices.
    Fix: Send the picture header as a unit of its own.
|L1 Cause: A unit has more than 2^23 bytes, or a merge would write such a unit.
   Fix: Use more slices. If a start code was lost, restore it.
|L2 Cause: The header and the slices of a picture, of a source or merged, have
   more than 2^25 bytes.
   Fix: Encode at a lower rate, or merge fewer sources.
|L3 Cause: A source, or the output of a merge, has more than 2^40 bytes.
   Fix: Cut the stream at random access points.
|L4 Cause: The arguments name more than 64 sources for `merge` or `verify`, or
   more than 64 regions for `play`. Nothing is read.
   Fix: Name at most 64. A merged stream can't be merged again (M1).
|L5 Cause: A picture, or all sources of a merge together, have more than 1,000
   slices.
   Fix: Use fewer: the levels of H.266 allow at most 1,000.
|L6 Cause: A picture, or the frame of a merge, is wider or higher than 16,384
   luma samples.
   Fix: Encode smaller pictures, or merge fewer.
|L7 Cause: A reference picture list structure has more than 29 entries.
   Fix: The encoder violates the standard: H.266 allows at most MaxDpbSize +
   13.
|L8 Cause: An SPS has more than 64 reference picture list structures for one
   list.
   Fix: The encoder violates the standard: send further structures in headers.
|L9 Cause: A picture has more than 1,000 subpictures.
   Fix: Use fewer: each has at least one slice, and the levels of H.266 allow
   at most 1,000 slices.
|L10 Cause: The SEI messages carried with a picture (mastering display colour
    volume, content light level, alternative transfer characteristics) have
    more than 65,536 bytes.
    Fix: Send each message once for a picture: each is only a few bytes long.
|L11 Cause: The arguments name more than 256 files for `play`. Nothing is read,
    and L4 is checked first.
    Fix: Put several segments into one file, each after an end of sequence.
|E1 Cause: The source has no picture.
   Fix: Use a stream with pictures: `show` lists what the source has.
|E2 Cause: The picture has no subpicture of this index.
   Fix: `show` prints how many each SPS has. Indices begin at 0.
|E3 Cause: The subpicture isn't treated as a picture: its slices may refer to
   samples outside it.
   Fix: Encode with sps_subpic_treated_as_pic_flag 1, or with independent
   subpictures.
|E4 Cause: In-loop filters cross the subpicture's borders, so without its
   neighbours it decodes to other samples.
   Fix: Encode with sps_loop_filter_across_subpic_enabled_flag 0, or with
   independent subpictures.
|E5 Cause: `--tid` would leave out an IRAP or GDR picture, and what follows it
   couldn't be decoded.
   Fix: Keep more sublayers: such pictures usually have TemporalId 0.
|M1 Cause: The source's pictures have several subpictures, and only whole
   pictures are merged.
   Fix: Take a subpicture out with `extract` first.
|M2 Cause: Source K's SPS differs from source 0's in the field that is named.
   Decoding slices depends on it, or it is the profile, the tier, or one of
   the two constraint flags after the level.
   Fix: Encode all sources with one configuration of tools, bit depth, chroma
   format and CTU size.
|M3 Cause: The regions don't make up a frame. This region's corner isn't a
   multiple of the CTU size, or the region overlaps a region before it. If the
   source is 0, there may be a gap instead.
   Fix: Put corners on multiples of the CTU size, without gaps and overlaps:
   `show` prints CTU size, width and height. A source whose size isn't such a
   multiple goes to the frame's right or lower border.
|M4 Cause: A CTU of the region has its left or upper neighbour in a later
   region.
   Fix: Name the files from left to right and from top to bottom.
|M5 Cause: Tiles don't line up. Either another region's tile border would cut
   through this region where it has none. Or this region's upper border can't
   be a tile border of the frame, and the file named just before isn't the
   region directly above it with the same left and right borders.
   Fix: Encode the sources with the tiles that the frame needs. Or give
   sources that lie below one another a single tile each, and name them
   consecutively.
|M6 Cause: Source K's picture differs from source 0's in its NAL unit type, its
   TemporalId, or whether an end of sequence precedes it.
   Fix: Encode all sources with one structure of pictures. In a joined round
   only the type has to be equal, such as IDR_N_LP in all regions.
|M7 Cause: Source K's PPS differs from source 0's in the named field, which the
   decoding of slices depends on.
   Fix: Encode all sources with one configuration.
|M8 Cause: Source K's picture header differs in the named field, which the
   decoding of slices depends on. Encoders choose some by the picture's
   content: ph_joint_cbcr_sign_flag (643), deblocking and SAO flags, the
   collocated picture, limits of block partitioning. Field 606 says that the
   low bits of the picture order count differ.
   Fix: Turn such choices off, or fix them. For field 643, turn JointCbCr off,
   or take the sign from the slice type, not the residuals. Take deblocking,
   SAO and partitioning limits from a fixed configuration. For field 606, let
   all encoders begin each segment with the same ph_pic_order_cnt_lsb, usually
   0: the program doesn't renumber pictures.
|M9 Cause: Source K's LMCS model or scaling lists differ from those of the
   first source that has any.
   Fix: A picture can have only one of each: turn LMCS off or fix its model,
   and use one scaling matrix.
|M10 Cause: The reference picture lists of source K's first slice differ from
    source 0's.
    Fix: Encode all sources with one structure of pictures.
|M11 Cause: sh_no_output_of_prior_pics_flag differs from its value in the
    round's first slice. At an IRAP or GDR picture it says whether earlier
    pictures are still output.
    Fix: Encode all sources with the same value.
|M12 Cause: With this source the picture needs more than 8 different adaptive
    loop filter sets. A set that several slices use counts once.
    Fix: Let each source use fewer, or turn the filter off in some.
|M13 Cause: Whether in-loop filters cross the borders of tiles, or of slices,
    differs among the sources that have several.
    Fix: One PPS applies to all: turn filters across tiles, and across slices,
    on in all sources or off in all.
|M14 Cause: The source ended while another continued.
    Fix: Cut all sources to the same number of pictures. For `play`, this
    applies to whole regions; their files may be cut at different places.
|M15 Cause: The round is joined, and the region's picture can't begin there: it
    starts no coded layer video sequence, has a TemporalId above 0, or isn't a
    reference picture (ph_non_ref_pic_flag).
    Fix: Where a file begins, give all regions an IDR picture with TemporalId
    0. A CRA picture inside a file starts no sequence.
|M16 Cause: A slice of source K names a different collocated picture
    (sh_collocated_ref_idx) from the round's first slice that names one.
    Fix: A picture has one collocated picture. Encode the choice in the
    picture header, or fix it, for instance to the first entry of list 0. Let
    the lists of all sources agree.
|C1 Cause: OUT's picture (`source 0`) doesn't have as many subpictures as there
   are sources, or this source's picture has several.
   Fix: Name one source for each subpicture (`show OUT` prints how many), each
   with one subpicture: `extract` takes one out.
|C2 Cause: The upper left corner of the subpicture isn't at this source's
   place.
   Fix: Name the sources in the order of the subpictures' indices, with X, Y
   in luma samples. If they are right, OUT's SPS has another grid.
|C3 Cause: The subpicture and the source's picture have different numbers of
   slices.
   Fix: Name the file that belongs here. If a slice was lost or cut anew, make
   OUT again.
|C4 Cause: A slice has a different decoding input from the source's. `slice` is
   its address in the subpicture, `part` what differs first, and `field`, for
   parts 2 to 5, the first field that differs (otherwise 0).
   Fix: It depends on the part:
   - part 1, NAL unit type, TemporalId, start of a coded layer video sequence,
     end of sequence before it, or picture order count: a picture or an end of
     sequence was lost or added.
   - parts 2 to 5, SPS, PPS, picture header, slice header: OUT needs the
     source's value of the field. If the sources differ in it, encode them
     alike (M2, M7, M8).
   - parts 6 to 8, adaptive loop filter, LMCS or
     ph_chroma_residual_scale_flag, scaling lists: an adaptation parameter set
     is missing, comes too late, or has an id that another source's has.
   - part 9, reference picture lists: entries were lost or added. All sources
     need the same picture order counts.
   - part 10, SliceQpY: if OUT has another pps_init_qp_minus26, the slice's QP
     delta has to make up for it.
   - part 11, size, tiles and slices of the subpicture, the slice's place
     among them, or filters across their borders: the file belongs elsewhere,
     or another source's tile border runs through its region.
   - part 12, the bytes after the slice header: encoded anew, damaged or cut.
|C5 Cause: This file, the lowest one, ended while another continued.
   Fix: A picture is missing in a file: `show` lists those of each.
|1 vps_video_parameter_set_id: The id of the video parameter set.
A field of a video parameter set, clause 7.3.2.3. It isn't compared between
streams.
|2 vps_max_layers_minus1: The greatest number of layers, less 1.
A field of a video parameter set, clause 7.3.2.3. It isn't compared between
streams.
|3 vps_max_sublayers_minus1: The greatest number of sublayers, less 1.
A field of a video parameter set, clause 7.3.2.3. It isn't compared between
streams.
|11 general_profile_idc: The profile.
A field of profile, tier and level, clause 7.3.3.1, and of its general
constraints, clause 7.3.3.2. Only `merge` compares it, among its sources (M2).
|12 general_tier_flag: The tier: 1 for High.
A field of profile, tier and level, clause 7.3.3.1, and of its general
constraints, clause 7.3.3.2. Only `merge` compares it, among its sources (M2).
|13 general_level_idc: The level: 16 for each major number and 3 for each minor
one, so 51 is 3.1.
A field of profile, tier and level, clause 7.3.3.1, and of its general
constraints, clause 7.3.3.2. It isn't compared between streams.
|14 ptl_frame_only_constraint_flag: Whether all pictures are frames.
A field of profile, tier and level, clause 7.3.3.1, and of its general
constraints, clause 7.3.3.2. Only `merge` compares it, among its sources (M2).
|15 ptl_multilayer_enabled_flag: Whether there may be several layers.
A field of profile, tier and level, clause 7.3.3.1, and of its general
constraints, clause 7.3.3.2. Only `merge` compares it, among its sources (M2).
|16 gci_present_flag: Whether general constraints follow.
A field of profile, tier and level, clause 7.3.3.1, and of its general
constraints, clause 7.3.3.2. It isn't compared between streams.
|17 gci_constraint_bit: Each of the 71 bits of the constraints from
`gci_intra_only_constraint_flag` on.
A field of profile, tier and level, clause 7.3.3.1, and of its general
constraints, clause 7.3.3.2. It isn't compared between streams.
|18 gci_num_additional_bits: The number of further bits of constraints.
A field of profile, tier and level, clause 7.3.3.1, and of its general
constraints, clause 7.3.3.2. It isn't compared between streams.
|19 gci_reserved_bit: Each of these further bits.
A field of profile, tier and level, clause 7.3.3.1, and of its general
constraints, clause 7.3.3.2. It isn't compared between streams.
|20 ptl_sublayer_level_present_flag: Whether a sublayer has a level of its own;
also the zeros before the first.
A field of profile, tier and level, clause 7.3.3.1, and of its general
constraints, clause 7.3.3.2. It isn't compared between streams.
|21 sublayer_level_idc: The level of a sublayer; also the zeros before the
first.
A field of profile, tier and level, clause 7.3.3.1, and of its general
constraints, clause 7.3.3.2. It isn't compared between streams.
|22 ptl_num_sub_profiles: The number of sub-profiles.
A field of profile, tier and level, clause 7.3.3.1, and of its general
constraints, clause 7.3.3.2. It isn't compared between streams.
|23 general_sub_profile_idc: A sub-profile.
A field of profile, tier and level, clause 7.3.3.1, and of its general
constraints, clause 7.3.3.2. It isn't compared between streams.
|31 dpb_max_dec_pic_buffering_minus1: The pictures that a decoder stores, less
1.
A field of DPB parameters, clause 7.3.4. It isn't compared between streams.
|32 dpb_max_num_reorder_pics: The number of pictures that may be decoded before
a picture and shown after it.
A field of DPB parameters, clause 7.3.4. It isn't compared between streams.
|33 dpb_max_latency_increase_plus1: The increase of latency, plus 1; 0 if there
is no limit.
A field of DPB parameters, clause 7.3.4. It isn't compared between streams.
|41 num_units_in_tick: The units of time in a tick.
A field of timing and HRD parameters, clauses 7.3.5.1 to 7.3.5.3. It isn't
compared between streams.
|42 time_scale: The units of time in a second.
A field of timing and HRD parameters, clauses 7.3.5.1 to 7.3.5.3. It isn't
compared between streams.
|43 general_nal_hrd_params_present_flag: Whether there are NAL HRD parameters.
A field of timing and HRD parameters, clauses 7.3.5.1 to 7.3.5.3. It isn't
compared between streams.
|44 general_vcl_hrd_params_present_flag: Whether there are VCL HRD parameters.
A field of timing and HRD parameters, clauses 7.3.5.1 to 7.3.5.3. It isn't
compared between streams.
|45 general_same_pic_timing_in_all_ols_flag: Whether one picture timing message
serves all output layer sets.
A field of timing and HRD parameters, clauses 7.3.5.1 to 7.3.5.3. It isn't
compared between streams.
|46 general_du_hrd_params_present_flag: Whether there are HRD parameters of
decoding units.
A field of timing and HRD parameters, clauses 7.3.5.1 to 7.3.5.3. It isn't
compared between streams.
|47 tick_divisor_minus2: The divisor of a tick for decoding units, less 2.
A field of timing and HRD parameters, clauses 7.3.5.1 to 7.3.5.3. It isn't
compared between streams.
|48 bit_rate_scale: The scale of bit rates.
A field of timing and HRD parameters, clauses 7.3.5.1 to 7.3.5.3. It isn't
compared between streams.
|49 cpb_size_scale: The scale of CPB sizes.
A field of timing and HRD parameters, clauses 7.3.5.1 to 7.3.5.3. It isn't
compared between streams.
|50 cpb_size_du_scale: The scale of CPB sizes of decoding units.
A field of timing and HRD parameters, clauses 7.3.5.1 to 7.3.5.3. It isn't
compared between streams.
|51 hrd_cpb_cnt_minus1: The number of CPBs, less 1.
A field of timing and HRD parameters, clauses 7.3.5.1 to 7.3.5.3. It isn't
compared between streams.
|52 fixed_pic_rate_general_flag: Whether the rate of pictures is fixed.
A field of timing and HRD parameters, clauses 7.3.5.1 to 7.3.5.3. It isn't
compared between streams.
|53 fixed_pic_rate_within_cvs_flag: Whether it is fixed within a CVS; 1 if
absent.
A field of timing and HRD parameters, clauses 7.3.5.1 to 7.3.5.3. It isn't
compared between streams.
|54 elemental_duration_in_tc_minus1: The ticks between pictures, less 1.
A field of timing and HRD parameters, clauses 7.3.5.1 to 7.3.5.3. It isn't
compared between streams.
|55 low_delay_hrd_flag: Whether the HRD works at low delay.
A field of timing and HRD parameters, clauses 7.3.5.1 to 7.3.5.3. It isn't
compared between streams.
|56 bit_rate_value_minus1: The bit rate of a CPB, less 1, by its scale.
A field of timing and HRD parameters, clauses 7.3.5.1 to 7.3.5.3. It isn't
compared between streams.
|57 cpb_size_value_minus1: The size of a CPB, less 1, by its scale.
A field of timing and HRD parameters, clauses 7.3.5.1 to 7.3.5.3. It isn't
compared between streams.
|58 cpb_size_du_value_minus1: The size of a CPB for decoding units, less 1, by
its scale.
A field of timing and HRD parameters, clauses 7.3.5.1 to 7.3.5.3. It isn't
compared between streams.
|59 bit_rate_du_value_minus1: The bit rate of a CPB for decoding units, less 1,
by its scale.
A field of timing and HRD parameters, clauses 7.3.5.1 to 7.3.5.3. It isn't
compared between streams.
|60 cbr_flag: Whether the bit rate is constant.
A field of timing and HRD parameters, clauses 7.3.5.1 to 7.3.5.3. It isn't
compared between streams.
|100 sps_seq_parameter_set_id: The id of the sequence parameter set.
A field of a sequence parameter set, clause 7.3.2.4. It isn't compared between
streams.
|101 sps_video_parameter_set_id: The id of its video parameter set; 0 for none.
A field of a sequence parameter set, clause 7.3.2.4. It isn't compared between
streams.
|102 sps_max_sublayers_minus1: The greatest number of sublayers, less 1.
A field of a sequence parameter set, clause 7.3.2.4.
|103 sps_chroma_format_idc: The chroma format: 0 for 4:0:0, 1 for 4:2:0.
A field of a sequence parameter set, clause 7.3.2.4.
|104 sps_log2_ctu_size_minus5: The binary logarithm of the CTU size, less 5.
A field of a sequence parameter set, clause 7.3.2.4.
|105 sps_ptl_dpb_hrd_params_present_flag: Whether profile, tier, level, DPB and
HRD parameters follow.
A field of a sequence parameter set, clause 7.3.2.4.
|106 sps_gdr_enabled_flag: Whether there may be GDR pictures.
A field of a sequence parameter set, clause 7.3.2.4.
|107 sps_ref_pic_resampling_enabled_flag: Whether reference pictures may be
resampled.
A field of a sequence parameter set, clause 7.3.2.4.
|108 sps_res_change_in_clvs_allowed_flag: Whether the size may change within a
CLVS.
A field of a sequence parameter set, clause 7.3.2.4.
|109 sps_pic_width_max_in_luma_samples: The largest width of a picture.
A field of a sequence parameter set, clause 7.3.2.4. It isn't compared between
streams.
|110 sps_pic_height_max_in_luma_samples: The largest height of a picture.
A field of a sequence parameter set, clause 7.3.2.4. It isn't compared between
streams.
|111 sps_conformance_window_flag: Whether a conformance window follows.
A field of a sequence parameter set, clause 7.3.2.4. It isn't compared between
streams.
|112 sps_conf_win_left_offset: The left border of the conformance window.
A field of a sequence parameter set, clause 7.3.2.4. It isn't compared between
streams.
|113 sps_conf_win_right_offset: The right border of the conformance window.
A field of a sequence parameter set, clause 7.3.2.4. It isn't compared between
streams.
|114 sps_conf_win_top_offset: The top border of the conformance window.
A field of a sequence parameter set, clause 7.3.2.4. It isn't compared between
streams.
|115 sps_conf_win_bottom_offset: The bottom border of the conformance window.
A field of a sequence parameter set, clause 7.3.2.4. It isn't compared between
streams.
|116 sps_subpic_info_present_flag: Whether subpictures are described.
A field of a sequence parameter set, clause 7.3.2.4. It isn't compared between
streams.
|117 sps_num_subpics_minus1: The number of subpictures, less 1.
A field of a sequence parameter set, clause 7.3.2.4. It isn't compared between
streams.
|118 sps_independent_subpics_flag: Whether each subpicture is decoded by
itself.
A field of a sequence parameter set, clause 7.3.2.4. It isn't compared between
streams.
|119 sps_subpic_same_size_flag: Whether all subpictures have the size of the
first.
A field of a sequence parameter set, clause 7.3.2.4. It isn't compared between
streams.
|120 sps_subpic_ctu_top_left_x: The column of CTUs at which a subpicture
begins.
A field of a sequence parameter set, clause 7.3.2.4. It isn't compared between
streams.
|121 sps_subpic_ctu_top_left_y: The row of CTUs at which a subpicture begins.
A field of a sequence parameter set, clause 7.3.2.4. It isn't compared between
streams.
|122 sps_subpic_width_minus1: The width of a subpicture in CTUs, less 1.
A field of a sequence parameter set, clause 7.3.2.4. It isn't compared between
streams.
|123 sps_subpic_height_minus1: The height of a subpicture in CTUs, less 1.
A field of a sequence parameter set, clause 7.3.2.4. It isn't compared between
streams.
|124 sps_subpic_treated_as_pic_flag: Whether a subpicture is treated as a
picture.
A field of a sequence parameter set, clause 7.3.2.4. It isn't compared between
streams.
|125 sps_loop_filter_across_subpic_enabled_flag: Whether loop filters cross the
borders of a subpicture.
A field of a sequence parameter set, clause 7.3.2.4. It isn't compared between
streams.
|126 sps_subpic_id_len_minus1: The bits of a subpicture id, less 1.
A field of a sequence parameter set, clause 7.3.2.4. It isn't compared between
streams.
|127 sps_subpic_id_mapping_explicitly_signalled_flag: Whether subpicture ids
are written, here or in the PPS.
A field of a sequence parameter set, clause 7.3.2.4. It isn't compared between
streams.
|128 sps_subpic_id_mapping_present_flag: Whether they are written here.
A field of a sequence parameter set, clause 7.3.2.4. It isn't compared between
streams.
|129 sps_subpic_id: The id of a subpicture.
A field of a sequence parameter set, clause 7.3.2.4. It isn't compared between
streams.
|130 sps_bitdepth_minus8: The bits of a sample, less 8.
A field of a sequence parameter set, clause 7.3.2.4.
|131 sps_entropy_coding_sync_enabled_flag: Whether entropy coding starts again
in each row of CTUs.
A field of a sequence parameter set, clause 7.3.2.4.
|132 sps_entry_point_offsets_present_flag: Whether slice headers have entry
points.
A field of a sequence parameter set, clause 7.3.2.4.
|133 sps_log2_max_pic_order_cnt_lsb_minus4: The low bits of a picture order
count, less 4.
A field of a sequence parameter set, clause 7.3.2.4.
|134 sps_poc_msb_cycle_flag: Whether picture headers may have the cycle of the
high bits.
A field of a sequence parameter set, clause 7.3.2.4.
|135 sps_poc_msb_cycle_len_minus1: The bits of that cycle, less 1.
A field of a sequence parameter set, clause 7.3.2.4.
|136 sps_num_extra_ph_bytes: The bytes of flags on extra bits of picture
headers.
A field of a sequence parameter set, clause 7.3.2.4.
|137 sps_extra_ph_bit_present_flag: Whether picture headers have an extra bit.
A field of a sequence parameter set, clause 7.3.2.4.
|138 sps_num_extra_sh_bytes: The bytes of flags on extra bits of slice headers.
A field of a sequence parameter set, clause 7.3.2.4.
|139 sps_extra_sh_bit_present_flag: Whether slice headers have an extra bit.
A field of a sequence parameter set, clause 7.3.2.4.
|140 sps_sublayer_dpb_params_flag: Whether each sublayer has DPB parameters of
its own.
A field of a sequence parameter set, clause 7.3.2.4. It isn't compared between
streams.
|141 sps_log2_min_luma_coding_block_size_minus2: The binary logarithm of the
least luma coding block size, less 2.
A field of a sequence parameter set, clause 7.3.2.4.
|142 sps_partition_constraints_override_enabled_flag: Whether picture headers
may have their own limits of partitions.
A field of a sequence parameter set, clause 7.3.2.4.
|143 sps_log2_diff_min_qt_min_cb_intra_slice_luma: Intra luma: the least
quadtree leaf over the least coding block, in binary logarithms.
A field of a sequence parameter set, clause 7.3.2.4.
|144 sps_max_mtt_hierarchy_depth_intra_slice_luma: Intra luma: the greatest
depth of multi-type trees.
A field of a sequence parameter set, clause 7.3.2.4.
|145 sps_log2_diff_max_bt_min_qt_intra_slice_luma: Intra luma: the largest
binary split over the least quadtree leaf, in binary logarithms.
A field of a sequence parameter set, clause 7.3.2.4.
|146 sps_log2_diff_max_tt_min_qt_intra_slice_luma: Intra luma: the largest
ternary split over the least quadtree leaf, in binary logarithms.
A field of a sequence parameter set, clause 7.3.2.4.
|147 sps_qtbtt_dual_tree_intra_flag: Whether luma and chroma have separate
trees in intra slices.
A field of a sequence parameter set, clause 7.3.2.4.
|148 sps_log2_diff_min_qt_min_cb_intra_slice_chroma: Intra chroma: the least
quadtree leaf over the least coding block, in binary logarithms.
A field of a sequence parameter set, clause 7.3.2.4.
|149 sps_max_mtt_hierarchy_depth_intra_slice_chroma: Intra chroma: the greatest
depth of multi-type trees.
A field of a sequence parameter set, clause 7.3.2.4.
|150 sps_log2_diff_max_bt_min_qt_intra_slice_chroma: Intra chroma: the largest
binary split over the least quadtree leaf, in binary logarithms.
A field of a sequence parameter set, clause 7.3.2.4.
|151 sps_log2_diff_max_tt_min_qt_intra_slice_chroma: Intra chroma: the largest
ternary split over the least quadtree leaf, in binary logarithms.
A field of a sequence parameter set, clause 7.3.2.4.
|152 sps_log2_diff_min_qt_min_cb_inter_slice: Inter slices: the least quadtree
leaf over the least coding block, in binary logarithms.
A field of a sequence parameter set, clause 7.3.2.4.
|153 sps_max_mtt_hierarchy_depth_inter_slice: Inter slices: the greatest depth
of multi-type trees.
A field of a sequence parameter set, clause 7.3.2.4.
|154 sps_log2_diff_max_bt_min_qt_inter_slice: Inter slices: the largest binary
split over the least quadtree leaf, in binary logarithms.
A field of a sequence parameter set, clause 7.3.2.4.
|155 sps_log2_diff_max_tt_min_qt_inter_slice: Inter slices: the largest ternary
split over the least quadtree leaf, in binary logarithms.
A field of a sequence parameter set, clause 7.3.2.4.
|156 sps_max_luma_transform_size_64_flag: Whether luma transforms may have 64
samples.
A field of a sequence parameter set, clause 7.3.2.4.
|157 sps_transform_skip_enabled_flag: Whether transforms may be skipped.
A field of a sequence parameter set, clause 7.3.2.4.
|158 sps_log2_transform_skip_max_size_minus2: The binary logarithm of the
largest block whose transform is skipped, less 2.
A field of a sequence parameter set, clause 7.3.2.4.
|159 sps_bdpcm_enabled_flag: Whether there is BDPCM.
A field of a sequence parameter set, clause 7.3.2.4.
|160 sps_mts_enabled_flag: Whether there are multiple transform sets.
A field of a sequence parameter set, clause 7.3.2.4.
|161 sps_explicit_mts_intra_enabled_flag: Whether intra blocks name their
transforms.
A field of a sequence parameter set, clause 7.3.2.4.
|162 sps_explicit_mts_inter_enabled_flag: Whether inter blocks name their
transforms.
A field of a sequence parameter set, clause 7.3.2.4.
|163 sps_lfnst_enabled_flag: Whether there is the low-frequency non-separable
transform.
A field of a sequence parameter set, clause 7.3.2.4.
|164 sps_joint_cbcr_enabled_flag: Whether chroma residuals may be coded
jointly.
A field of a sequence parameter set, clause 7.3.2.4.
|165 sps_same_qp_table_for_chroma_flag: Whether there is only one chroma QP
table.
A field of a sequence parameter set, clause 7.3.2.4.
|166 sps_qp_table_start_minus26: The luma QP at which a chroma QP table begins,
less 26.
A field of a sequence parameter set, clause 7.3.2.4.
|167 sps_num_points_in_qp_table_minus1: The points of a chroma QP table, less
1.
A field of a sequence parameter set, clause 7.3.2.4.
|168 sps_delta_qp_in_val_minus1: The step of the luma QP to a point, less 1.
A field of a sequence parameter set, clause 7.3.2.4.
|169 sps_delta_qp_diff_val: The step of the chroma QP to a point, relative to
the luma QP.
A field of a sequence parameter set, clause 7.3.2.4.
|170 sps_sao_enabled_flag: Whether there is sample adaptive offset.
A field of a sequence parameter set, clause 7.3.2.4.
|171 sps_alf_enabled_flag: Whether there is the adaptive loop filter.
A field of a sequence parameter set, clause 7.3.2.4.
|172 sps_ccalf_enabled_flag: Whether there is the cross-component adaptive loop
filter.
A field of a sequence parameter set, clause 7.3.2.4.
|173 sps_lmcs_enabled_flag: Whether there is luma mapping with chroma scaling.
A field of a sequence parameter set, clause 7.3.2.4.
|174 sps_weighted_pred_flag: Whether P slices may have weights.
A field of a sequence parameter set, clause 7.3.2.4.
|175 sps_weighted_bipred_flag: Whether B slices may have weights.
A field of a sequence parameter set, clause 7.3.2.4.
|176 sps_long_term_ref_pics_flag: Whether there are long-term reference
pictures.
A field of a sequence parameter set, clause 7.3.2.4.
|177 sps_idr_rpl_present_flag: Whether slices of IDR pictures have reference
lists.
A field of a sequence parameter set, clause 7.3.2.4.
|178 sps_rpl1_same_as_rpl0_flag: Whether list 1 has the reference structures of
list 0.
A field of a sequence parameter set, clause 7.3.2.4.
|179 sps_num_ref_pic_lists: The number of reference structures of a list.
A field of a sequence parameter set, clause 7.3.2.4.
|180 sps_ref_wraparound_enabled_flag: Whether motion may wrap around the
picture.
A field of a sequence parameter set, clause 7.3.2.4.
|181 sps_temporal_mvp_enabled_flag: Whether motion is predicted from another
picture.
A field of a sequence parameter set, clause 7.3.2.4.
|182 sps_sbtmvp_enabled_flag: Whether it is predicted in this way for
subblocks.
A field of a sequence parameter set, clause 7.3.2.4.
|183 sps_amvr_enabled_flag: Whether the resolution of motion is adaptive.
A field of a sequence parameter set, clause 7.3.2.4.
|184 sps_bdof_enabled_flag: Whether there is bi-directional optical flow.
A field of a sequence parameter set, clause 7.3.2.4.
|185 sps_bdof_control_present_in_ph_flag: Whether picture headers turn it off.
A field of a sequence parameter set, clause 7.3.2.4.
|186 sps_smvd_enabled_flag: Whether motion differences may be symmetric.
A field of a sequence parameter set, clause 7.3.2.4.
|187 sps_dmvr_enabled_flag: Whether decoders refine motion.
A field of a sequence parameter set, clause 7.3.2.4.
|188 sps_dmvr_control_present_in_ph_flag: Whether picture headers turn that
off.
A field of a sequence parameter set, clause 7.3.2.4.
|189 sps_mmvd_enabled_flag: Whether there is merge mode with motion
differences.
A field of a sequence parameter set, clause 7.3.2.4.
|190 sps_mmvd_fullpel_only_enabled_flag: Whether these may only be whole
samples.
A field of a sequence parameter set, clause 7.3.2.4.
|191 sps_six_minus_max_num_merge_cand: 6 less the greatest number of merge
candidates.
A field of a sequence parameter set, clause 7.3.2.4.
|192 sps_sbt_enabled_flag: Whether there are subblock transforms.
A field of a sequence parameter set, clause 7.3.2.4.
|193 sps_affine_enabled_flag: Whether there is affine motion.
A field of a sequence parameter set, clause 7.3.2.4.
|194 sps_five_minus_max_num_subblock_merge_cand: 5 less the greatest number of
subblock merge candidates.
A field of a sequence parameter set, clause 7.3.2.4.
|195 sps_6param_affine_enabled_flag: Whether affine motion may have six
parameters.
A field of a sequence parameter set, clause 7.3.2.4.
|196 sps_affine_amvr_enabled_flag: Whether the resolution of affine motion is
adaptive.
A field of a sequence parameter set, clause 7.3.2.4.
|197 sps_affine_prof_enabled_flag: Whether affine prediction is refined by
optical flow.
A field of a sequence parameter set, clause 7.3.2.4.
|198 sps_prof_control_present_in_ph_flag: Whether picture headers turn that
off.
A field of a sequence parameter set, clause 7.3.2.4.
|199 sps_bcw_enabled_flag: Whether there is bi-prediction with CU weights.
A field of a sequence parameter set, clause 7.3.2.4.
|200 sps_ciip_enabled_flag: Whether there is combined inter and intra
prediction.
A field of a sequence parameter set, clause 7.3.2.4.
|201 sps_gpm_enabled_flag: Whether there is geometric partition.
A field of a sequence parameter set, clause 7.3.2.4.
|202 sps_max_num_merge_cand_minus_max_num_gpm_cand: The greatest number of
merge candidates less that of geometric partition.
A field of a sequence parameter set, clause 7.3.2.4.
|203 sps_log2_parallel_merge_level_minus2: The binary logarithm of the parallel
merge level, less 2.
A field of a sequence parameter set, clause 7.3.2.4.
|204 sps_isp_enabled_flag: Whether there are intra subpartitions.
A field of a sequence parameter set, clause 7.3.2.4.
|205 sps_mrl_enabled_flag: Whether intra prediction has several reference
lines.
A field of a sequence parameter set, clause 7.3.2.4.
|206 sps_mip_enabled_flag: Whether there is matrix intra prediction.
A field of a sequence parameter set, clause 7.3.2.4.
|207 sps_cclm_enabled_flag: Whether chroma is predicted from luma by a linear
model.
A field of a sequence parameter set, clause 7.3.2.4.
|208 sps_chroma_horizontal_collocated_flag: Whether chroma samples lie at luma
samples, horizontally.
A field of a sequence parameter set, clause 7.3.2.4.
|209 sps_chroma_vertical_collocated_flag: Whether chroma samples lie at luma
samples, vertically.
A field of a sequence parameter set, clause 7.3.2.4.
|210 sps_palette_enabled_flag: Whether there is palette mode.
A field of a sequence parameter set, clause 7.3.2.4.
|211 sps_min_qp_prime_ts: The least QP of blocks whose transform is skipped,
less 4, in sixths.
A field of a sequence parameter set, clause 7.3.2.4.
|212 sps_ibc_enabled_flag: Whether there is intra block copy.
A field of a sequence parameter set, clause 7.3.2.4.
|213 sps_six_minus_max_num_ibc_merge_cand: 6 less the greatest number of merge
candidates of intra block copy.
A field of a sequence parameter set, clause 7.3.2.4.
|214 sps_ladf_enabled_flag: Whether deblocking adapts to luma.
A field of a sequence parameter set, clause 7.3.2.4.
|215 sps_num_ladf_intervals_minus2: The intervals of luma for that, less 2.
A field of a sequence parameter set, clause 7.3.2.4.
|216 sps_ladf_lowest_interval_qp_offset: The QP offset of the lowest interval.
A field of a sequence parameter set, clause 7.3.2.4.
|217 sps_ladf_qp_offset: The QP offset of an interval.
A field of a sequence parameter set, clause 7.3.2.4.
|218 sps_ladf_delta_threshold_minus1: The size of an interval, less 1.
A field of a sequence parameter set, clause 7.3.2.4.
|219 sps_explicit_scaling_list_enabled_flag: Whether there are scaling lists.
A field of a sequence parameter set, clause 7.3.2.4.
|220 sps_scaling_matrix_for_lfnst_disabled_flag: Whether blocks of the
non-separable transform have none.
A field of a sequence parameter set, clause 7.3.2.4.
|221 sps_dep_quant_enabled_flag: Whether there is dependent quantization.
A field of a sequence parameter set, clause 7.3.2.4.
|222 sps_sign_data_hiding_enabled_flag: Whether signs may be hidden.
A field of a sequence parameter set, clause 7.3.2.4.
|223 sps_virtual_boundaries_enabled_flag: Whether there are virtual boundaries.
A field of a sequence parameter set, clause 7.3.2.4.
|224 sps_timing_hrd_params_present_flag: Whether timing and HRD parameters
follow.
A field of a sequence parameter set, clause 7.3.2.4. It isn't compared between
streams.
|225 sps_sublayer_cpb_params_present_flag: Whether each sublayer has HRD
parameters of its own.
A field of a sequence parameter set, clause 7.3.2.4. It isn't compared between
streams.
|226 sps_field_seq_flag: Whether pictures are fields.
A field of a sequence parameter set, clause 7.3.2.4.
|227 sps_vui_parameters_present_flag: Whether usability information follows.
A field of a sequence parameter set, clause 7.3.2.4. It isn't compared between
streams.
|228 sps_vui_payload_size_minus1: The bytes of usability information, less 1.
A field of a sequence parameter set, clause 7.3.2.4. It isn't compared between
streams.
|229 vui_payload_byte: A byte of `vui_payload()`; also the zeros before the
first.
A field of a sequence parameter set, clause 7.3.2.4. It isn't compared between
streams.
|230 sps_extension_flag: Whether an extension follows.
A field of a sequence parameter set, clause 7.3.2.4.
|231 sps_rbsp_trailing_bits: The trailing bits of a sequence parameter set.
A field of a sequence parameter set, clause 7.3.2.4.
|301 num_ref_entries: The number of entries of a structure.
A field of reference picture lists, clause 7.3.9, and of their structures,
clause 7.3.10.
|302 ltrp_in_header_flag: Whether the low bits of its long-term entries are in
headers.
A field of reference picture lists, clause 7.3.9, and of their structures,
clause 7.3.10.
|303 st_ref_pic_flag: Whether an entry is short-term; 1 if absent.
A field of reference picture lists, clause 7.3.9, and of their structures,
clause 7.3.10.
|304 abs_delta_poc_st: The distance of a short-term entry.
A field of reference picture lists, clause 7.3.9, and of their structures,
clause 7.3.10.
|305 strp_entry_sign_flag: The sign of that distance.
A field of reference picture lists, clause 7.3.9, and of their structures,
clause 7.3.10.
|306 rpls_poc_lsb_lt: The low bits of the order count of a long-term entry.
A field of reference picture lists, clause 7.3.9, and of their structures,
clause 7.3.10.
|307 rpl_sps_flag: Whether a list is a structure of the SPS.
A field of reference picture lists, clause 7.3.9, and of their structures,
clause 7.3.10.
|308 rpl_idx: The index of that structure.
A field of reference picture lists, clause 7.3.9, and of their structures,
clause 7.3.10.
|309 poc_lsb_lt: The low bits of the order count of a long-term entry, in a
header.
A field of reference picture lists, clause 7.3.9, and of their structures,
clause 7.3.10.
|310 delta_poc_msb_cycle_present_flag: Whether the cycle of its high bits
follows.
A field of reference picture lists, clause 7.3.9, and of their structures,
clause 7.3.10.
|311 delta_poc_msb_cycle_lt: That cycle, as a difference.
A field of reference picture lists, clause 7.3.9, and of their structures,
clause 7.3.10.
|321 luma_log2_weight_denom: The binary logarithm of the denominator of luma
weights.
A field of weights, clause 7.3.8; those of both lists have the name without
`_l0` and `_l1`.
|322 delta_chroma_log2_weight_denom: That of chroma weights, as a difference.
A field of weights, clause 7.3.8; those of both lists have the name without
`_l0` and `_l1`.
|323 num_l0_weights: The number of weights of list 0.
A field of weights, clause 7.3.8; those of both lists have the name without
`_l0` and `_l1`.
|324 luma_weight_flag: Whether an entry has a luma weight:
`luma_weight_l0_flag`, `luma_weight_l1_flag`.
A field of weights, clause 7.3.8; those of both lists have the name without
`_l0` and `_l1`.
|325 chroma_weight_flag: Whether an entry has chroma weights:
`chroma_weight_l0_flag`, `chroma_weight_l1_flag`.
A field of weights, clause 7.3.8; those of both lists have the name without
`_l0` and `_l1`.
|326 delta_luma_weight: A luma weight, as a difference: `delta_luma_weight_l0`,
`delta_luma_weight_l1`.
A field of weights, clause 7.3.8; those of both lists have the name without
`_l0` and `_l1`.
|327 luma_offset: A luma offset: `luma_offset_l0`, `luma_offset_l1`.
A field of weights, clause 7.3.8; those of both lists have the name without
`_l0` and `_l1`.
|328 delta_chroma_weight: A chroma weight, as a difference:
`delta_chroma_weight_l0`, `delta_chroma_weight_l1`.
A field of weights, clause 7.3.8; those of both lists have the name without
`_l0` and `_l1`.
|329 delta_chroma_offset: A chroma offset, as a difference:
`delta_chroma_offset_l0`, `delta_chroma_offset_l1`.
A field of weights, clause 7.3.8; those of both lists have the name without
`_l0` and `_l1`.
|330 num_l1_weights: The number of weights of list 1.
A field of weights, clause 7.3.8; those of both lists have the name without
`_l0` and `_l1`.
|400 pps_pic_parameter_set_id: The id of the picture parameter set.
A field of a picture parameter set, clause 7.3.2.5. It isn't compared between
streams.
|401 pps_seq_parameter_set_id: The id of its sequence parameter set.
A field of a picture parameter set, clause 7.3.2.5. It isn't compared between
streams.
|402 pps_mixed_nalu_types_in_pic_flag: Whether the slices of a picture may have
several NAL unit types.
A field of a picture parameter set, clause 7.3.2.5.
|403 pps_pic_width_in_luma_samples: The width of a picture.
A field of a picture parameter set, clause 7.3.2.5. It isn't compared between
streams.
|404 pps_pic_height_in_luma_samples: The height of a picture.
A field of a picture parameter set, clause 7.3.2.5. It isn't compared between
streams.
|405 pps_conformance_window_flag: Whether a conformance window follows.
A field of a picture parameter set, clause 7.3.2.5. It isn't compared between
streams.
|406 pps_conf_win_left_offset: The left border of the conformance window.
A field of a picture parameter set, clause 7.3.2.5. It isn't compared between
streams.
|407 pps_conf_win_right_offset: The right border of the conformance window.
A field of a picture parameter set, clause 7.3.2.5. It isn't compared between
streams.
|408 pps_conf_win_top_offset: The top border of the conformance window.
A field of a picture parameter set, clause 7.3.2.5. It isn't compared between
streams.
|409 pps_conf_win_bottom_offset: The bottom border of the conformance window.
A field of a picture parameter set, clause 7.3.2.5. It isn't compared between
streams.
|410 pps_scaling_window_explicit_signalling_flag: Whether a scaling window
follows.
A field of a picture parameter set, clause 7.3.2.5.
|411 pps_output_flag_present_flag: Whether picture headers may say that a
picture is not shown.
A field of a picture parameter set, clause 7.3.2.5.
|412 pps_no_pic_partition_flag: Whether a picture has one tile and one slice.
A field of a picture parameter set, clause 7.3.2.5. It isn't compared between
streams.
|413 pps_subpic_id_mapping_present_flag: Whether subpicture ids are written
here.
A field of a picture parameter set, clause 7.3.2.5. It isn't compared between
streams.
|414 pps_num_subpics_minus1: The number of subpictures, less 1.
A field of a picture parameter set, clause 7.3.2.5. It isn't compared between
streams.
|415 pps_subpic_id_len_minus1: The bits of a subpicture id, less 1.
A field of a picture parameter set, clause 7.3.2.5. It isn't compared between
streams.
|416 pps_subpic_id: The id of a subpicture.
A field of a picture parameter set, clause 7.3.2.5. It isn't compared between
streams.
|417 pps_log2_ctu_size_minus5: The binary logarithm of the CTU size, less 5.
A field of a picture parameter set, clause 7.3.2.5. It isn't compared between
streams.
|418 pps_num_exp_tile_columns_minus1: The tile columns whose width is written,
less 1.
A field of a picture parameter set, clause 7.3.2.5. It isn't compared between
streams.
|419 pps_num_exp_tile_rows_minus1: The tile rows whose height is written, less
1.
A field of a picture parameter set, clause 7.3.2.5. It isn't compared between
streams.
|420 pps_tile_column_width_minus1: The width of a tile column in CTUs, less 1.
A field of a picture parameter set, clause 7.3.2.5. It isn't compared between
streams.
|421 pps_tile_row_height_minus1: The height of a tile row in CTUs, less 1.
A field of a picture parameter set, clause 7.3.2.5. It isn't compared between
streams.
|422 pps_loop_filter_across_tiles_enabled_flag: Whether loop filters cross the
borders of tiles.
A field of a picture parameter set, clause 7.3.2.5. It isn't compared between
streams.
|423 pps_rect_slice_flag: Whether slices are rectangles; 1 if absent.
A field of a picture parameter set, clause 7.3.2.5. It isn't compared between
streams.
|424 pps_single_slice_per_subpic_flag: Whether each subpicture is one slice.
A field of a picture parameter set, clause 7.3.2.5. It isn't compared between
streams.
|425 pps_num_slices_in_pic_minus1: The number of slices, less 1.
A field of a picture parameter set, clause 7.3.2.5. It isn't compared between
streams.
|426 pps_tile_idx_delta_present_flag: Whether the steps from slice to slice are
written.
A field of a picture parameter set, clause 7.3.2.5. It isn't compared between
streams.
|427 pps_slice_width_in_tiles_minus1: The width of a slice in tiles, less 1.
A field of a picture parameter set, clause 7.3.2.5. It isn't compared between
streams.
|428 pps_slice_height_in_tiles_minus1: The height of a slice in tiles, less 1.
A field of a picture parameter set, clause 7.3.2.5. It isn't compared between
streams.
|429 pps_num_exp_slices_in_tile: The slices of a tile whose height is written.
A field of a picture parameter set, clause 7.3.2.5. It isn't compared between
streams.
|430 pps_exp_slice_height_in_ctus_minus1: The height of such a slice in CTUs,
less 1.
A field of a picture parameter set, clause 7.3.2.5. It isn't compared between
streams.
|431 pps_tile_idx_delta_val: The step to the tile of the next slice.
A field of a picture parameter set, clause 7.3.2.5. It isn't compared between
streams.
|432 pps_loop_filter_across_slices_enabled_flag: Whether loop filters cross the
borders of slices.
A field of a picture parameter set, clause 7.3.2.5. It isn't compared between
streams.
|433 pps_cabac_init_present_flag: Whether slice headers choose the start of
entropy coding.
A field of a picture parameter set, clause 7.3.2.5.
|434 pps_num_ref_idx_default_active_minus1: The default number of active
entries of a list, less 1.
A field of a picture parameter set, clause 7.3.2.5.
|435 pps_rpl1_idx_present_flag: Whether the choice of list 1 is coded in
headers.
A field of a picture parameter set, clause 7.3.2.5.
|436 pps_weighted_pred_flag: Whether P slices have weights.
A field of a picture parameter set, clause 7.3.2.5.
|437 pps_weighted_bipred_flag: Whether B slices have weights.
A field of a picture parameter set, clause 7.3.2.5.
|438 pps_ref_wraparound_enabled_flag: Whether motion wraps around the picture.
A field of a picture parameter set, clause 7.3.2.5.
|439 pps_init_qp_minus26: The QP to which slices add, less 26.
A field of a picture parameter set, clause 7.3.2.5. It isn't compared between
streams.
|440 pps_cu_qp_delta_enabled_flag: Whether the QP may change within a slice.
A field of a picture parameter set, clause 7.3.2.5.
|441 pps_chroma_tool_offsets_present_flag: Whether chroma offsets follow.
A field of a picture parameter set, clause 7.3.2.5.
|442 pps_cb_qp_offset: The QP offset of Cb.
A field of a picture parameter set, clause 7.3.2.5.
|443 pps_cr_qp_offset: The QP offset of Cr.
A field of a picture parameter set, clause 7.3.2.5.
|444 pps_joint_cbcr_qp_offset_present_flag: Whether joint chroma residuals have
a QP offset.
A field of a picture parameter set, clause 7.3.2.5.
|445 pps_joint_cbcr_qp_offset_value: That offset.
A field of a picture parameter set, clause 7.3.2.5.
|446 pps_slice_chroma_qp_offsets_present_flag: Whether slice headers have
chroma QP offsets.
A field of a picture parameter set, clause 7.3.2.5.
|447 pps_cu_chroma_qp_offset_list_enabled_flag: Whether blocks choose chroma QP
offsets from a list.
A field of a picture parameter set, clause 7.3.2.5.
|448 pps_chroma_qp_offset_list_len_minus1: The length of that list, less 1.
A field of a picture parameter set, clause 7.3.2.5.
|449 pps_cb_qp_offset_list: A QP offset of Cb in the list.
A field of a picture parameter set, clause 7.3.2.5.
|450 pps_cr_qp_offset_list: A QP offset of Cr in the list.
A field of a picture parameter set, clause 7.3.2.5.
|451 pps_joint_cbcr_qp_offset_list: A QP offset of joint chroma residuals in
the list.
A field of a picture parameter set, clause 7.3.2.5.
|452 pps_deblocking_filter_control_present_flag: Whether the deblocking filter
is described.
A field of a picture parameter set, clause 7.3.2.5.
|453 pps_deblocking_filter_override_enabled_flag: Whether headers may describe
it themselves.
A field of a picture parameter set, clause 7.3.2.5.
|454 pps_deblocking_filter_disabled_flag: Whether it is off.
A field of a picture parameter set, clause 7.3.2.5.
|455 pps_dbf_info_in_ph_flag: Whether its parameters are in picture headers.
A field of a picture parameter set, clause 7.3.2.5.
|456 pps_luma_beta_offset_div2: The beta offset of luma, halved.
A field of a picture parameter set, clause 7.3.2.5.
|457 pps_luma_tc_offset_div2: The tc offset of luma, halved.
A field of a picture parameter set, clause 7.3.2.5.
|458 pps_cb_beta_offset_div2: The beta offset of Cb, halved.
A field of a picture parameter set, clause 7.3.2.5.
|459 pps_cb_tc_offset_div2: The tc offset of Cb, halved.
A field of a picture parameter set, clause 7.3.2.5.
|460 pps_cr_beta_offset_div2: The beta offset of Cr, halved.
A field of a picture parameter set, clause 7.3.2.5.
|461 pps_cr_tc_offset_div2: The tc offset of Cr, halved.
A field of a picture parameter set, clause 7.3.2.5.
|462 pps_rpl_info_in_ph_flag: Whether reference lists are in picture headers.
A field of a picture parameter set, clause 7.3.2.5.
|463 pps_sao_info_in_ph_flag: Whether sample adaptive offset is in picture
headers.
A field of a picture parameter set, clause 7.3.2.5.
|464 pps_alf_info_in_ph_flag: Whether the adaptive loop filter is in picture
headers.
A field of a picture parameter set, clause 7.3.2.5. It isn't compared between
streams.
|465 pps_wp_info_in_ph_flag: Whether weights are in picture headers.
A field of a picture parameter set, clause 7.3.2.5.
|466 pps_qp_delta_info_in_ph_flag: Whether the QP is in picture headers.
A field of a picture parameter set, clause 7.3.2.5. It isn't compared between
streams.
|467 pps_picture_header_extension_present_flag: Whether picture headers have an
extension.
A field of a picture parameter set, clause 7.3.2.5.
|468 pps_slice_header_extension_present_flag: Whether slice headers have an
extension.
A field of a picture parameter set, clause 7.3.2.5.
|469 pps_extension_flag: Whether an extension follows.
A field of a picture parameter set, clause 7.3.2.5.
|470 pps_rbsp_trailing_bits: The trailing bits of a picture parameter set.
A field of a picture parameter set, clause 7.3.2.5.
|501 aps_params_type: The type: 0 for ALF, 1 for LMCS, 2 for scaling lists.
A field of an adaptation parameter set, clause 7.3.2.6. It isn't compared
between streams.
|502 aps_adaptation_parameter_set_id: The id of the set among those of its
type.
A field of an adaptation parameter set, clause 7.3.2.6. It isn't compared
between streams.
|503 aps_body: The bytes after the first.
A field of an adaptation parameter set, clause 7.3.2.6. It isn't compared
between streams.
|600 ph_gdr_or_irap_pic_flag: Whether the picture is a GDR or an IRAP picture.
A field of a picture header, clause 7.3.2.8.
|601 ph_non_ref_pic_flag: Whether no other picture refers to it.
A field of a picture header, clause 7.3.2.8.
|602 ph_gdr_pic_flag: Whether it is a GDR picture.
A field of a picture header, clause 7.3.2.8.
|603 ph_inter_slice_allowed_flag: Whether there may be inter slices.
A field of a picture header, clause 7.3.2.8.
|604 ph_intra_slice_allowed_flag: Whether there may be intra slices; 1 if
absent.
A field of a picture header, clause 7.3.2.8.
|605 ph_pic_parameter_set_id: The id of the picture parameter set.
A field of a picture header, clause 7.3.2.8. It isn't compared between
streams.
|606 ph_pic_order_cnt_lsb: The low bits of the picture order count.
A field of a picture header, clause 7.3.2.8.
|607 ph_recovery_poc_cnt: How far a GDR picture is from the recovery point.
A field of a picture header, clause 7.3.2.8.
|608 ph_extra_bit: An extra bit.
A field of a picture header, clause 7.3.2.8.
|609 ph_poc_msb_cycle_present_flag: Whether the cycle of the high bits follows.
A field of a picture header, clause 7.3.2.8.
|610 ph_poc_msb_cycle_val: That cycle.
A field of a picture header, clause 7.3.2.8.
|611 ph_lmcs_enabled_flag: Whether there is luma mapping with chroma scaling.
A field of a picture header, clause 7.3.2.8. It isn't compared between
streams.
|612 ph_lmcs_aps_id: The id of its adaptation parameter set.
A field of a picture header, clause 7.3.2.8. It isn't compared between
streams.
|613 ph_chroma_residual_scale_flag: Whether chroma residuals are scaled.
A field of a picture header, clause 7.3.2.8. It isn't compared between
streams.
|614 ph_explicit_scaling_list_enabled_flag: Whether there are scaling lists.
A field of a picture header, clause 7.3.2.8. It isn't compared between
streams.
|615 ph_scaling_list_aps_id: The id of their adaptation parameter set.
A field of a picture header, clause 7.3.2.8. It isn't compared between
streams.
|616 ph_pic_output_flag: Whether the picture is shown; 1 if absent.
A field of a picture header, clause 7.3.2.8.
|617 ph_partition_constraints_override_flag: Whether the header has its own
limits of partitions.
A field of a picture header, clause 7.3.2.8.
|618 ph_log2_diff_min_qt_min_cb_intra_slice_luma: Intra luma: the least
quadtree leaf over the least coding block, in binary logarithms.
A field of a picture header, clause 7.3.2.8.
|619 ph_max_mtt_hierarchy_depth_intra_slice_luma: Intra luma: the greatest
depth of multi-type trees.
A field of a picture header, clause 7.3.2.8.
|620 ph_log2_diff_max_bt_min_qt_intra_slice_luma: Intra luma: the largest
binary split over the least quadtree leaf, in binary logarithms.
A field of a picture header, clause 7.3.2.8.
|621 ph_log2_diff_max_tt_min_qt_intra_slice_luma: Intra luma: the largest
ternary split over the least quadtree leaf, in binary logarithms.
A field of a picture header, clause 7.3.2.8.
|622 ph_log2_diff_min_qt_min_cb_intra_slice_chroma: Intra chroma: the least
quadtree leaf over the least coding block, in binary logarithms.
A field of a picture header, clause 7.3.2.8.
|623 ph_max_mtt_hierarchy_depth_intra_slice_chroma: Intra chroma: the greatest
depth of multi-type trees.
A field of a picture header, clause 7.3.2.8.
|624 ph_log2_diff_max_bt_min_qt_intra_slice_chroma: Intra chroma: the largest
binary split over the least quadtree leaf, in binary logarithms.
A field of a picture header, clause 7.3.2.8.
|625 ph_log2_diff_max_tt_min_qt_intra_slice_chroma: Intra chroma: the largest
ternary split over the least quadtree leaf, in binary logarithms.
A field of a picture header, clause 7.3.2.8.
|626 ph_cu_qp_delta_subdiv_intra_slice: The depth at which the QP changes in
intra slices.
A field of a picture header, clause 7.3.2.8.
|627 ph_cu_chroma_qp_offset_subdiv_intra_slice: The depth at which chroma QP
offsets change in intra slices.
A field of a picture header, clause 7.3.2.8.
|628 ph_log2_diff_min_qt_min_cb_inter_slice: Inter slices: the least quadtree
leaf over the least coding block, in binary logarithms.
A field of a picture header, clause 7.3.2.8.
|629 ph_max_mtt_hierarchy_depth_inter_slice: Inter slices: the greatest depth
of multi-type trees.
A field of a picture header, clause 7.3.2.8.
|630 ph_log2_diff_max_bt_min_qt_inter_slice: Inter slices: the largest binary
split over the least quadtree leaf, in binary logarithms.
A field of a picture header, clause 7.3.2.8.
|631 ph_log2_diff_max_tt_min_qt_inter_slice: Inter slices: the largest ternary
split over the least quadtree leaf, in binary logarithms.
A field of a picture header, clause 7.3.2.8.
|632 ph_cu_qp_delta_subdiv_inter_slice: The depth at which the QP changes in
inter slices.
A field of a picture header, clause 7.3.2.8.
|633 ph_cu_chroma_qp_offset_subdiv_inter_slice: The depth at which chroma QP
offsets change in inter slices.
A field of a picture header, clause 7.3.2.8.
|634 ph_temporal_mvp_enabled_flag: Whether motion is predicted from another
picture.
A field of a picture header, clause 7.3.2.8.
|635 ph_collocated_from_l0_flag: Whether that picture is in list 0; 1 if
absent.
A field of a picture header, clause 7.3.2.8.
|636 ph_collocated_ref_idx: The place of that picture in the list.
A field of a picture header, clause 7.3.2.8.
|637 ph_mmvd_fullpel_only_flag: Whether motion differences of merge mode are
whole samples.
A field of a picture header, clause 7.3.2.8.
|638 ph_mvd_l1_zero_flag: Whether motion differences of list 1 are zero.
A field of a picture header, clause 7.3.2.8.
|639 ph_bdof_disabled_flag: Whether bi-directional optical flow is off.
A field of a picture header, clause 7.3.2.8.
|640 ph_dmvr_disabled_flag: Whether decoders refine no motion.
A field of a picture header, clause 7.3.2.8.
|641 ph_prof_disabled_flag: Whether affine prediction is not refined.
A field of a picture header, clause 7.3.2.8.
|642 ph_qp_delta: The QP of the slices, as a difference.
A field of a picture header, clause 7.3.2.8. It isn't compared between
streams.
|643 ph_joint_cbcr_sign_flag: The sign of joint chroma residuals.
A field of a picture header, clause 7.3.2.8.
|644 ph_sao_luma_enabled_flag: Whether there is sample adaptive offset of luma.
A field of a picture header, clause 7.3.2.8.
|645 ph_sao_chroma_enabled_flag: Whether there is sample adaptive offset of
chroma.
A field of a picture header, clause 7.3.2.8.
|646 ph_deblocking_params_present_flag: Whether the deblocking filter is
described.
A field of a picture header, clause 7.3.2.8.
|647 ph_deblocking_filter_disabled_flag: Whether it is off.
A field of a picture header, clause 7.3.2.8.
|648 ph_luma_beta_offset_div2: The beta offset of luma, halved.
A field of a picture header, clause 7.3.2.8.
|649 ph_luma_tc_offset_div2: The tc offset of luma, halved.
A field of a picture header, clause 7.3.2.8.
|650 ph_cb_beta_offset_div2: The beta offset of Cb, halved.
A field of a picture header, clause 7.3.2.8.
|651 ph_cb_tc_offset_div2: The tc offset of Cb, halved.
A field of a picture header, clause 7.3.2.8.
|652 ph_cr_beta_offset_div2: The beta offset of Cr, halved.
A field of a picture header, clause 7.3.2.8.
|653 ph_cr_tc_offset_div2: The tc offset of Cr, halved.
A field of a picture header, clause 7.3.2.8.
|654 ph_extension_length: The bytes of the extension.
A field of a picture header, clause 7.3.2.8.
|655 ph_extension_data_byte: A byte of the extension.
A field of a picture header, clause 7.3.2.8.
|656 ph_rbsp_trailing_bits: The trailing bits of a picture header that is a
unit of its own.
A field of a picture header, clause 7.3.2.8.
|681 alf_enabled_flag: Whether the filter is on: `ph_alf_enabled_flag`,
`sh_alf_enabled_flag`.
A field of the adaptive loop filter in picture and slice headers, clauses
7.3.2.8 and 7.3.7; each has the name without `ph_` and `sh_`. It isn't
compared between streams.
|682 num_alf_aps_ids_luma: The number of sets of the luma filter:
`ph_num_alf_aps_ids_luma`, `sh_num_alf_aps_ids_luma`.
A field of the adaptive loop filter in picture and slice headers, clauses
7.3.2.8 and 7.3.7; each has the name without `ph_` and `sh_`. It isn't
compared between streams.
|683 alf_aps_id_luma: The id of one of these: `ph_alf_aps_id_luma`,
`sh_alf_aps_id_luma`.
A field of the adaptive loop filter in picture and slice headers, clauses
7.3.2.8 and 7.3.7; each has the name without `ph_` and `sh_`. It isn't
compared between streams.
|684 alf_cb_enabled_flag: Whether Cb is filtered: `ph_alf_cb_enabled_flag`,
`sh_alf_cb_enabled_flag`.
A field of the adaptive loop filter in picture and slice headers, clauses
7.3.2.8 and 7.3.7; each has the name without `ph_` and `sh_`. It isn't
compared between streams.
|685 alf_cr_enabled_flag: Whether Cr is filtered: `ph_alf_cr_enabled_flag`,
`sh_alf_cr_enabled_flag`.
A field of the adaptive loop filter in picture and slice headers, clauses
7.3.2.8 and 7.3.7; each has the name without `ph_` and `sh_`. It isn't
compared between streams.
|686 alf_aps_id_chroma: The id of the set of the chroma filter:
`ph_alf_aps_id_chroma`, `sh_alf_aps_id_chroma`.
A field of the adaptive loop filter in picture and slice headers, clauses
7.3.2.8 and 7.3.7; each has the name without `ph_` and `sh_`. It isn't
compared between streams.
|687 alf_cc_cb_enabled_flag: Whether Cb is filtered by luma:
`ph_alf_cc_cb_enabled_flag`, `sh_alf_cc_cb_enabled_flag`.
A field of the adaptive loop filter in picture and slice headers, clauses
7.3.2.8 and 7.3.7; each has the name without `ph_` and `sh_`. It isn't
compared between streams.
|688 alf_cc_cb_aps_id: The id of the set for that: `ph_alf_cc_cb_aps_id`,
`sh_alf_cc_cb_aps_id`.
A field of the adaptive loop filter in picture and slice headers, clauses
7.3.2.8 and 7.3.7; each has the name without `ph_` and `sh_`. It isn't
compared between streams.
|689 alf_cc_cr_enabled_flag: Whether Cr is filtered by luma:
`ph_alf_cc_cr_enabled_flag`, `sh_alf_cc_cr_enabled_flag`.
A field of the adaptive loop filter in picture and slice headers, clauses
7.3.2.8 and 7.3.7; each has the name without `ph_` and `sh_`. It isn't
compared between streams.
|690 alf_cc_cr_aps_id: The id of the set for that: `ph_alf_cc_cr_aps_id`,
`sh_alf_cc_cr_aps_id`.
A field of the adaptive loop filter in picture and slice headers, clauses
7.3.2.8 and 7.3.7; each has the name without `ph_` and `sh_`. It isn't
compared between streams.
|700 sh_picture_header_in_slice_header_flag: Whether the picture header
follows.
A field of a slice header, clause 7.3.7. It isn't compared between streams.
|701 sh_subpic_id: The id of the subpicture.
A field of a slice header, clause 7.3.7. It isn't compared between streams.
|702 sh_slice_address: The address of the slice in its subpicture.
A field of a slice header, clause 7.3.7.
|703 sh_extra_bit: An extra bit.
A field of a slice header, clause 7.3.7.
|704 sh_slice_type: The type: 0 for B, 1 for P, 2 for I; 2 if absent.
A field of a slice header, clause 7.3.7.
|705 sh_no_output_of_prior_pics_flag: Whether earlier pictures are not shown.
A field of a slice header, clause 7.3.7.
|706 sh_lmcs_used_flag: Whether the slice uses luma mapping with chroma
scaling.
A field of a slice header, clause 7.3.7. It isn't compared between streams.
|707 sh_explicit_scaling_list_used_flag: Whether the slice uses scaling lists.
A field of a slice header, clause 7.3.7. It isn't compared between streams.
|708 sh_num_ref_idx_active_override_flag: Whether the header has the number of
active entries; 1 if absent.
A field of a slice header, clause 7.3.7.
|709 sh_num_ref_idx_active_minus1: The active entries of a list, less 1.
A field of a slice header, clause 7.3.7.
|710 sh_cabac_init_flag: The start of entropy coding of the slice.
A field of a slice header, clause 7.3.7.
|711 sh_collocated_from_l0_flag: Whether motion is predicted from a picture of
list 0; 1 if absent.
A field of a slice header, clause 7.3.7.
|712 sh_collocated_ref_idx: The place of that picture in the list.
A field of a slice header, clause 7.3.7.
|713 sh_qp_delta: The QP of the slice, as a difference.
A field of a slice header, clause 7.3.7. It isn't compared between streams.
|714 sh_cb_qp_offset: The QP offset of Cb.
A field of a slice header, clause 7.3.7.
|715 sh_cr_qp_offset: The QP offset of Cr.
A field of a slice header, clause 7.3.7.
|716 sh_joint_cbcr_qp_offset: The QP offset of joint chroma residuals.
A field of a slice header, clause 7.3.7.
|717 sh_cu_chroma_qp_offset_enabled_flag: Whether blocks choose chroma QP
offsets from the list.
A field of a slice header, clause 7.3.7.
|718 sh_sao_luma_used_flag: Whether the slice uses sample adaptive offset of
luma.
A field of a slice header, clause 7.3.7.
|719 sh_sao_chroma_used_flag: Whether the slice uses sample adaptive offset of
chroma.
A field of a slice header, clause 7.3.7.
|720 sh_deblocking_params_present_flag: Whether the deblocking filter is
described.
A field of a slice header, clause 7.3.7.
|721 sh_deblocking_filter_disabled_flag: Whether it is off.
A field of a slice header, clause 7.3.7.
|722 sh_luma_beta_offset_div2: The beta offset of luma, halved.
A field of a slice header, clause 7.3.7.
|723 sh_luma_tc_offset_div2: The tc offset of luma, halved.
A field of a slice header, clause 7.3.7.
|724 sh_cb_beta_offset_div2: The beta offset of Cb, halved.
A field of a slice header, clause 7.3.7.
|725 sh_cb_tc_offset_div2: The tc offset of Cb, halved.
A field of a slice header, clause 7.3.7.
|726 sh_cr_beta_offset_div2: The beta offset of Cr, halved.
A field of a slice header, clause 7.3.7.
|727 sh_cr_tc_offset_div2: The tc offset of Cr, halved.
A field of a slice header, clause 7.3.7.
|728 sh_dep_quant_used_flag: Whether the slice uses dependent quantization.
A field of a slice header, clause 7.3.7.
|729 sh_sign_data_hiding_used_flag: Whether the slice hides signs.
A field of a slice header, clause 7.3.7.
|730 sh_ts_residual_coding_disabled_flag: Whether blocks whose transform is
skipped are coded as others.
A field of a slice header, clause 7.3.7.
|731 sh_slice_header_extension_length: The bytes of the extension.
A field of a slice header, clause 7.3.7.
|732 sh_slice_header_extension_data_byte: A byte of the extension.
A field of a slice header, clause 7.3.7.
|733 sh_entry_offset_len_minus1: The bits of an entry point, less 1.
A field of a slice header, clause 7.3.7.
|734 sh_entry_point_offset_minus1: The distance of an entry point from the one
before, less 1.
A field of a slice header, clause 7.3.7.
|735 sh_byte_alignment: The alignment after the header.
A field of a slice header, clause 7.3.7.
";
